//! The documents of a filing or a cure.
ghost use Rattle.std.specs.Prelude.{◌≡◌, ◌≤◌, length, IfErr, IfOk, IsTrue};
ghost use Rattle.gb_base.specs.Limits.{is_between};
ghost use Rattle.act_model.specs.WellFormed.{is_doc};
ghost use Rattle.act_json.specs.Grammar.{doc_called, read_consent, bare};
ghost use Rattle.act_json.specs.inner.Helpers.{widest};
ghost use Rattle.act_json.specs.inner.Values.{view};

use crate::Path;
use crate::reading::{FromJson, kind_word, member, number, only};
use crate::values::string;
use crate::words::{DocWord, doc_word, form};
use act_model::{Doc, Form};
use json::Value;

impl FromJson for DocWord {
    ghost use Rattle.act_json.specs.Reading.{word_of};
    ghost use Rattle.act_json.specs.Grammar.{doc_words};

    ghost reads = { word_of doc_words };

    ghost longest = { 0 };

    fn read(value: &Value<'_>) -> Result<DocWord, Path> {
        string(value).and_then(doc_word).ok_or(Path::here())
    }
}

impl FromJson for Form {
    ghost use Rattle.act_json.specs.Reading.{word_of};
    ghost use Rattle.act_json.specs.Grammar.{forms};

    ghost reads = { word_of forms };

    ghost longest = { 0 };

    fn read(value: &Value<'_>) -> Result<Form, Path> {
        string(value).and_then(form).ok_or(Path::here())
    }
}

impl FromJson for Doc {
    ghost use Rattle.act_json.specs.Grammar.{read_doc};
    ghost use Rattle.act_model.specs.WellFormed.{is_doc};

    ghost reads = { read_doc };

    ghost longest = { 7 };

    ghost keeps = { is_doc };

    #[tactic(auto, unfolding(crate::specs::Grammar::read_doc))]
    fn read(value: &Value<'_>) -> Result<Doc, Path> {
        let word = kind_word(value, "doc")?;
        let act = number(value, "act", 1, 8)?;
        doc(value, word, act as u8)
    }
}

/// The document for this act that is called so.
fn doc(value: &Value<'_>, word: DocWord, act: u8) -> Result<Doc, Path>
    requires narrow { widest (view value.now) ≤ 99999 }
    requires act { IsTrue (is_between 1 8 act) }
    ensures exact { result ≡ doc_called word act (view value.now) }
    ensures short { IfErr result (λ path. length path ≤ 7) }
    ensures good { IfOk result (λ doc. IsTrue (is_doc doc)) }
{
    match word {
        DocWord::Consent => consent(value, act),
        DocWord::Agreement => bare(value, Doc::Agreement { act }),
        DocWord::Clearance => bare(value, Doc::TaxClearance { act }),
        DocWord::Expiry => bare(value, Doc::ExpiryProof { act }),
    }
}

#[tactic(auto, unfolding(crate::specs::Grammar::read_consent))]
fn consent(value: &Value<'_>, act: u8) -> Result<Doc, Path>
    requires narrow { widest (view value.now) ≤ 99999 }
    requires act { IsTrue (is_between 1 8 act) }
    ensures exact { result ≡ read_consent act (view value.now) }
    ensures short { IfErr result (λ path. length path ≤ 7) }
    ensures good { IfOk result (λ doc. IsTrue (is_doc doc)) }
{
    let person = member(value, "person")?;
    let form = member(value, "form")?;
    only(value, &["doc", "act", "person", "form"])?;
    Ok(Doc::Consent { act, person, form })
}

/// This document, which has no members besides its name and its act.
fn bare(value: &Value<'_>, doc: Doc) -> Result<Doc, Path>
    ensures exact { result ≡ bare doc (view value.now) }
    ensures short { IfErr result (λ path. length path ≤ 1) }
    ensures good { IfOk result (λ found. found ≡ doc) }
{
    only(value, &["doc", "act"])?;
    Ok(doc)
}
