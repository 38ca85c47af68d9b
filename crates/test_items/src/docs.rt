//! Documents, and lists of them.
ghost use Rattle.std.specs.Prelude.{◌≡◌, ◌≤◌, length};
ghost use Rattle.act_model.specs.Limits.{most_docs};

use crate::person;
use act_model::{Doc, Docs, Form};
use arrayvec::ArrayVec;

/// The certified consent of a person to an act.
pub fn consent(act: u8, by: u32) -> Doc
    requires { 1 ≤ by }
{
    Doc::Consent {
        act,
        person: person(by),
        form: Form::Certified,
    }
}

/// The consent of a person to an act in plain form, which does not suffice.
pub fn plain_consent(act: u8, by: u32) -> Doc
    requires { 1 ≤ by }
{
    Doc::Consent {
        act,
        person: person(by),
        form: Form::Plain,
    }
}

/// These documents.
pub fn documents(list: &[Doc]) -> Docs
    requires { length list.now ≤ most_docs }
    ensures { result ≡ list.now }
{
    Docs::new(ArrayVec::try_from(list).unwrap())
}
