//! The words that tell apart the kinds of an object.
ghost use Rattle.std.specs.Prelude.{◌≡◌};
ghost use Rattle.act_json.specs.Reading.{look_up};
ghost use Rattle.act_json.specs.Grammar.{right_words, act_words, doc_words, forms, basis_words, registration_words, item_words};

use act_model::Form;

/// What kind of right an act speaks of.
#[derive(Clone, Copy, Debug)]
pub(crate) enum RightWord {
    PersonalEasement,
    Usufruct,
    Mortgage,
    LandCharge,
}

pub(crate) fn right_word(text: &str) -> Option<RightWord>
    ensures { result ≡ look_up right_words text.now }
{
    match text {
        "personal-easement" => Some(RightWord::PersonalEasement),
        "usufruct" => Some(RightWord::Usufruct),
        "mortgage" => Some(RightWord::Mortgage),
        "land-charge" => Some(RightWord::LandCharge),
        _ => None,
    }
}

/// What an act is called.
#[derive(Clone, Copy, Debug)]
pub(crate) enum ActWord {
    Open,
    Transfer,
    Create,
    Notice,
    Convert,
    Assign,
    Cancel,
    Exchange,
    Exercise,
}

pub(crate) fn act_word(text: &str) -> Option<ActWord>
    ensures { result ≡ look_up act_words text.now }
{
    match text {
        "open" => Some(ActWord::Open),
        "transfer" => Some(ActWord::Transfer),
        "create" => Some(ActWord::Create),
        "notice" => Some(ActWord::Notice),
        "convert" => Some(ActWord::Convert),
        "assign" => Some(ActWord::Assign),
        "cancel" => Some(ActWord::Cancel),
        "exchange" => Some(ActWord::Exchange),
        "exercise" => Some(ActWord::Exercise),
        _ => None,
    }
}

/// What a document is called.
#[derive(Clone, Copy, Debug)]
pub(crate) enum DocWord {
    Consent,
    Agreement,
    Clearance,
    Expiry,
}

pub(crate) fn doc_word(text: &str) -> Option<DocWord>
    ensures { result ≡ look_up doc_words text.now }
{
    match text {
        "consent" => Some(DocWord::Consent),
        "agreement" => Some(DocWord::Agreement),
        "clearance" => Some(DocWord::Clearance),
        "expiry" => Some(DocWord::Expiry),
        _ => None,
    }
}

pub(crate) fn form(text: &str) -> Option<Form>
    ensures { result ≡ look_up forms text.now }
{
    match text {
        "certified" => Some(Form::Certified),
        "plain" => Some(Form::Plain),
        _ => None,
    }
}

/// What a seizure rests on.
#[derive(Clone, Copy, Debug)]
pub(crate) enum BasisWord {
    Personal,
    Right,
}

pub(crate) fn basis_word(text: &str) -> Option<BasisWord>
    ensures { result ≡ look_up basis_words text.now }
{
    match text {
        "personal" => Some(BasisWord::Personal),
        "right" => Some(BasisWord::Right),
        _ => None,
    }
}

/// What is registered for a sale.
#[derive(Clone, Copy, Debug)]
pub(crate) enum RegistrationWord {
    Advance,
    Charge,
    Arrears,
}

pub(crate) fn registration_word(text: &str) -> Option<RegistrationWord>
    ensures { result ≡ look_up registration_words text.now }
{
    match text {
        "advance" => Some(RegistrationWord::Advance),
        "charge" => Some(RegistrationWord::Charge),
        "arrears" => Some(RegistrationWord::Arrears),
        _ => None,
    }
}

/// What an item is called.
#[derive(Clone, Copy, Debug)]
pub(crate) enum ItemWord {
    Filing,
    Cure,
    Lapse,
    Seize,
    Register,
    OpenBids,
    Award,
    Distribute,
    Extend,
}

pub(crate) fn item_word(text: &str) -> Option<ItemWord>
    ensures { result ≡ look_up item_words text.now }
{
    match text {
        "filing" => Some(ItemWord::Filing),
        "cure" => Some(ItemWord::Cure),
        "lapse" => Some(ItemWord::Lapse),
        "seize" => Some(ItemWord::Seize),
        "register" => Some(ItemWord::Register),
        "open-bids" => Some(ItemWord::OpenBids),
        "award" => Some(ItemWord::Award),
        "distribute" => Some(ItemWord::Distribute),
        "extend" => Some(ItemWord::Extend),
        _ => None,
    }
}
