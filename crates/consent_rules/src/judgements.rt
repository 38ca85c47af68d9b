//! What becomes of a filing that is judged.
ghost use Rattle.std.specs.Prelude.{◌≡◌, ◌≤◌, length};
ghost use Rattle.consent_rules.specs.Limits.{most_defects};

use arrayvec::ArrayVec;
use gb_base::Section;
use std::marker::Model;

/// A curable defect of a filing: the section that an act does not meet (GBO § 18).
#[derive(Clone, Copy, Debug, PartialEq, Eq)]
pub struct Defect {
    pub section: Section,
    /// The number of the act in its filing, from 1 to 8.
    pub act: u8,
}

/// The lack of form at act 1 (GBO § 29), which fills the unused slots of a bounded list. A filing
/// can have this defect.
impl Default for Defect {
    ghost use Rattle.std.specs.Prelude.{◌≤◌, Contains};
    ghost use Rattle.gb_base.specs.Limits.{most_acts};
    ghost use Rattle.consent_rules.specs.Judging.{curables};

    fn default() -> Defect
        ensures curable { Contains curables result.section }
        ensures from_one { 1 ≤ result.act }
        ensures to_eight { result.act ≤ most_acts }
    {
        Defect {
            section: Section::Gbo29,
            act: 1,
        }
    }
}

/// The curable defects of a filing: at most six sections of at most eight acts.
#[derive(Clone, Debug, Drop)]
pub struct Defects {
    list: ArrayVec<Defect, 48>,
}

impl Model for Defects {
    ghost use Rattle.std.specs.Prelude.{List, ◌≤◌, length};
    ghost use Rattle.consent_rules.specs.Limits.{most_defects};
    ghost use Rattle.consent_rules.specs.declared.judgements.Defect.{Defect};

    ghost Value = { List Defect };

    ghost view = { λ a. a.list.items };

    ghost invariant = { λ a. length a.list.items ≤ most_defects };
}

impl Defects {
    /// These defects. It takes no memory.
    pub fn new(list: ArrayVec<Defect, 48>) -> Defects
        ensures { result ≡ list.items }
    {
        Defects { list }
    }

    /// The defects, by section and then by act.
    pub fn list(&self) -> &[Defect]
        ensures value { result.now ≡ self.now }
        ensures few { length self.now ≤ most_defects }
    {
        self.list.as_slice()
    }
}

/// What becomes of a filing (GBO § 18).
#[derive(Clone, Debug, Drop)]
pub enum Judgement {
    /// It is entered.
    Enter,
    /// It is rejected under this section.
    Reject(Section),
    /// It waits for cures of these defects.
    Interim(Defects),
}
