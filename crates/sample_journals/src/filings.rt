//! The filings of the generated journal.
ghost use Rattle.std.specs.Prelude.{◌≡◌, ◌≤◌, [], ◌∷◌, length};
ghost use Rattle.act_model.specs.Limits.{most_docs};
ghost use Rattle.sample_journals.specs.SampleFilings.{cancellation, certified_by, charge_drawn, creation, exchange, filed, opening, transfer};
ghost use Rattle.sample_journals.specs.Draws.{state_after};

use crate::draws::Draws;
use crate::folio_notes::KnownRight;
use act_model::{
    Act, Acts, Doc, Docs, Filing, Form, Inventory, Item, Owners, RightKind, RightSpec,
};
use arrayvec::ArrayVec;
use gb_base::{Cents, FolioId, Person, RightId};

/// Folio k is opened for owner k.
pub(crate) fn opening(folio: FolioId) -> Item
    ensures { result ≡ opening folio }
{
    let owner = Person::new(folio.get()).unwrap();
    let inventory = Inventory {
        district: 1,
        parcel: folio.get(),
        sub: 0,
        area: 500,
    };
    let act = Act::Open {
        folio,
        inventory,
        owners: one_owner(owner),
    };
    filed(owner, act, &[certified_by(owner)])
}

/// A land charge by two draws.
pub(crate) fn draw_charge(draws: &mut Draws) -> RightSpec
    ensures charge { result ≡ charge_drawn draws.old.state }
    ensures state { draws.new.state ≡ state_after (state_after draws.old.state) }
{
    let capital = 100_000 * (1 + u64::from(draws.below(50)));
    let holder = 1_000_001 + draws.below(20);
    RightSpec {
        kind: RightKind::LandCharge { rate_bp: 500 },
        capital: Cents::new(capital).unwrap(),
        holder: Person::new(holder).unwrap(),
        group: 1,
    }
}

/// The owner creates a land charge, with a consent of this form.
pub(crate) fn creation(folio: FolioId, owner: Person, form: Form, charge: RightSpec) -> Item
    ensures { result ≡ creation folio owner form charge }
{
    let act = Act::Create {
        folio,
        spec: charge,
        reserve: None,
    };
    let consent = Doc::Consent {
        act: 1,
        person: owner,
        form,
    };
    filed(owner, act, &[consent])
}

/// The owner gives the land to another person.
pub(crate) fn transfer(folio: FolioId, owner: Person, buyer: Person) -> Item
    ensures { result ≡ transfer folio owner buyer }
{
    let act = Act::Transfer {
        folio,
        owners: one_owner(buyer),
    };
    let docs = [
        certified_by(owner),
        Doc::Agreement { act: 1 },
        Doc::TaxClearance { act: 1 },
    ];
    filed(owner, act, &docs)
}

/// A right recedes behind another (BGB § 880).
pub(crate) fn exchange(folio: FolioId, owner: Person, recede: &KnownRight, rise: RightId) -> Item
    ensures { result ≡ exchange folio owner recede.now.right recede.now.holder rise }
{
    let act = Act::Exchange {
        folio,
        recede: recede.right,
        rise,
    };
    filed(
        owner,
        act,
        &[certified_by(recede.holder), certified_by(owner)],
    )
}

/// A right is cancelled (BGB § 875).
pub(crate) fn cancellation(folio: FolioId, owner: Person, right: &KnownRight) -> Item
    ensures { result ≡ cancellation folio owner right.now.right right.now.holder }
{
    let act = Act::Cancel {
        folio,
        right: right.right,
    };
    filed(
        owner,
        act,
        &[certified_by(right.holder), certified_by(owner)],
    )
}

/// The certified consent of a person to act 1.
pub(crate) fn certified_by(person: Person) -> Doc
    ensures { result ≡ certified_by person }
{
    Doc::Consent {
        act: 1,
        person,
        form: Form::Certified,
    }
}

/// These documents.
pub(crate) fn documents(list: &[Doc]) -> Docs
    requires { length list.now ≤ most_docs }
    ensures { result ≡ list.now }
{
    Docs::new(ArrayVec::try_from(list).unwrap())
}

/// One owner.
fn one_owner(person: Person) -> Owners
    ensures { result ≡ person ∷ [] }
{
    let mut list = ArrayVec::new();
    list.push(person);
    Owners::new(list).unwrap()
}

/// A filing under no condition, of one act.
fn filed(applicant: Person, act: Act, docs: &[Doc]) -> Item
    requires { length docs.now ≤ most_docs }
    ensures { result ≡ filed applicant act docs.now }
{
    Item::Filing(Filing {
        applicant,
        conditional: false,
        acts: one_act(act),
        docs: documents(docs),
    })
}

/// One act.
fn one_act(act: Act) -> Acts
    ensures { result ≡ act ∷ [] }
{
    let mut list = ArrayVec::new();
    list.push(act);
    Acts::new(list)
}
