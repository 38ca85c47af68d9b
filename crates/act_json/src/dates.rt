//! Dates, written YYYY-MM-DD.
use crate::Path;
use crate::reading::FromJson;
use crate::values::string;
use gb_base::Day;
use json::Value;

impl FromJson for Day {
    ghost use Rattle.act_json.specs.Dates.{read_day};

    ghost reads = { read_day };

    ghost longest = { 0 };

    #[tactic(auto, unfolding(crate::specs::Dates::read_day))]
    fn read(value: &Value<'_>) -> Result<Day, Path> {
        let text = string(value).ok_or(Path::here())?;
        Day::from_text(text.as_bytes()).ok_or(Path::here())
    }
}
