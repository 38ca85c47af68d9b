//! Arrays and their elements.
ghost use Rattle.std.specs.Prelude.{◌≡◌, ◌+◌, ◌<◌, ◌≤◌, List, length, IfErr, IfOk, MatchResult, Ok, Err, IsTrue};
ghost use Rattle.std.specs.List.{list_all};
ghost use Rattle.act_json.specs.Reading.{within, elements, array_of};
ghost use Rattle.act_json.specs.inner.Helpers.{widest};
ghost use Rattle.serde_json.specs.Data.{array};
ghost use Rattle.act_json.specs.inner.Values.{view, items_view};
ghost use Rattle.std.specs.Prelude.{decimal};

use crate::reading::FromJson;
use crate::{Path, values};
use arrayvec::ArrayVec;
use json::Value;

/// An array of `low` to N elements, which are read before they are counted.
#[tactic(auto, using(crate::proofs::Narrow::as_array_narrow))]
pub(crate) fn array<T: FromJson + Default, const N: usize>(
    value: &Value<'_>,
    low: usize,
) -> Result<ArrayVec<T, N>, Path>
    requires narrow { widest (view value.now) ≤ 99999 }
    requires short { T.longest < 26 }
    ensures exact { MatchResult result
        (λ list. array_of low N T.reads (view value.now) ≡ Ok list.items)
        (λ path. array_of low N T.reads (view value.now) ≡ Err path) }
    ensures short { IfErr result (λ path. length path ≤ 6 + T.longest) }
    ensures good { IfOk result (λ list. IsTrue (list_all T.keeps list.items)) }
{
    let Some(values) = values::elements(value) else {
        return Err(Path::here());
    };
    let list = elements(values)?;
    if values.len() < low || N < values.len() {
        return Err(Path::here());
    }
    Ok(list)
}

/// The elements, where they are at most N. All are read, also those for which there is no room.
fn elements<T: FromJson + Default, const N: usize>(
    values: &[Value<'_>],
) -> Result<ArrayVec<T, N>, Path>
    requires narrow { widest (array (items_view values.now)) ≤ 99999 }
    requires short { T.longest < 26 }
    ensures exact { MatchResult result
        (λ list. (all : List T) × (elements T.reads 0 (items_view values.now) ≡ Ok all)
        × (length all ≡ length values.now) × (length all ≤ N → list.items ≡ all))
        (λ path. elements T.reads 0 (items_view values.now) ≡ Err path) }
    ensures short { IfErr result (λ path. length path ≤ 6 + T.longest) }
    ensures good { IfOk result (λ list. IsTrue (list_all T.keeps list.items)) }
{
    let mut list = ArrayVec::new();
    for (i, value) in values.iter().enumerate() {
        let element = element(value, i)?;
        let _ = list.try_push(element);
    }
    Ok(list)
}

/// The element at this index of an array.
#[tactic(auto, using(crate::proofs::Names::digits_of_index))]
fn element<T: FromJson>(value: &Value<'_>, index: usize) -> Result<T, Path>
    requires narrow { widest (view value.now) ≤ 99999 }
    requires short { T.longest < 26 }
    requires few { index < 100000 }
    ensures exact { result ≡ within (decimal index) (T.reads (view value.now)) }
    ensures short { IfErr result (λ path. length path ≤ 6 + T.longest) }
    ensures good { IfOk result (λ x. IsTrue (T.keeps x)) }
{
    match T::read(value) {
        Ok(x) => Ok(x),
        Err(path) => {
            let mut digits = itoa::Buffer::new();
            Err(path.below(digits.format(index)))
        }
    }
}
