//! All claims of a sale, before they stand by class (ZVG §§ 10, 37, 45).
ghost use Rattle.std.specs.Prelude.{◌≡◌, ◌+◌, ◌*◌, ◌<◌, ◌≤◌, ◌++◌, ◌∷◌, [], filter, filter_map, flat_map, if◌then◌else◌, length, vec_capacity, vec_len};
ghost use Rattle.auction_classes.specs.Claims.{claim_of_person, claim_of_right, claim_registered, claims_by, claims_of_right, class_of_charge, is_claim, personal_claim};

use crate::case_items::{Registered, Seizure};
use crate::claim_items::Claim;
use crate::rights_found::RightFound;
use act_model::{Basis, Registration};
use gb_base::{Cents, Day, Person, push_copy};

/// Writes all claims of at least one cent, in place of what stood there: those registered, those of
/// personal creditors and those of these rights. The first seizure is of this year. Takes no memory.
pub(crate) fn write_claims(
    claims: &mut Vec<Claim>,
    year: u16,
    registrations: &[Registered],
    seizures: &[Seizure],
    rights: &[RightFound],
)
    requires year { 3 ≤ year }
    requires room { length registrations.now + (length seizures.now + 4 * length rights.now) ≤ vec_capacity claims.old }
    ensures claims { claims.new.items ≡ claims_by year registrations.now seizures.now rights.now }
    ensures few { vec_len claims.new ≤ length registrations.now + (length seizures.now + 4 * length rights.now) }
    ensures capacity { vec_capacity claims.new ≡ vec_capacity claims.old }
{
    claims.clear();
    add_registered(claims, year, registrations);
    add_personal(claims, seizures);
    add_of_rights(claims, rights);
}

/// Adds what these registrations claim.
fn add_registered(claims: &mut Vec<Claim>, year: u16, registrations: &[Registered])
    requires year { 3 ≤ year }
    requires room { vec_len claims.old + length registrations.now ≤ vec_capacity claims.old }
    ensures claims { claims.new.items ≡ claims.old.items ++ filter is_claim (filter_map (λ r. claim_registered year r.late r.what) registrations.now) }
    ensures few { vec_len claims.new ≤ vec_len claims.old + length registrations.now }
    ensures capacity { vec_capacity claims.new ≡ vec_capacity claims.old }
{
    for registered in registrations {
        add_claim_registered(claims, year, registered);
    }
}

/// Adds what a registration claims.
fn add_claim_registered(claims: &mut Vec<Claim>, year: u16, registered: &Registered)
    requires year { 3 ≤ year }
    requires room { vec_len claims.old < vec_capacity claims.old }
    ensures claims { claims.new.items ≡ claims.old.items ++ filter is_claim (filter_map (λ r. claim_registered year r.late r.what) (registered.now ∷ [])) }
    ensures few { vec_len claims.new ≤ vec_len claims.old + 1 }
    ensures capacity { vec_capacity claims.new ≡ vec_capacity claims.old }
{
    match &registered.what {
        Registration::Advance { person, amount } => {
            add(
                claims,
                &claim_of_person(1, registered.late, *person, *amount),
            );
        }
        Registration::PublicCharge {
            person,
            amount,
            due,
        } => {
            let class = class_of_charge(year, *due);
            add(
                claims,
                &claim_of_person(class, registered.late, *person, *amount),
            );
        }
        Registration::Arrears { .. } => {}
    }
}

/// Adds what the personal creditors of these seizures claim.
fn add_personal(claims: &mut Vec<Claim>, seizures: &[Seizure])
    requires room { vec_len claims.old + length seizures.now ≤ vec_capacity claims.old }
    ensures claims { claims.new.items ≡ claims.old.items ++ filter is_claim (filter_map (λ seizure. personal_claim seizure.basis) seizures.now) }
    ensures few { vec_len claims.new ≤ vec_len claims.old + length seizures.now }
    ensures capacity { vec_capacity claims.new ≡ vec_capacity claims.old }
{
    for seizure in seizures {
        add_personal_claim(claims, seizure);
    }
}

/// Adds what the personal creditor of a seizure claims.
fn add_personal_claim(claims: &mut Vec<Claim>, seizure: &Seizure)
    requires room { vec_len claims.old < vec_capacity claims.old }
    ensures claims { claims.new.items ≡ claims.old.items ++ filter is_claim (filter_map (λ z. personal_claim z.basis) (seizure.now ∷ [])) }
    ensures few { vec_len claims.new ≤ vec_len claims.old + 1 }
    ensures capacity { vec_capacity claims.new ≡ vec_capacity claims.old }
{
    match &seizure.basis {
        Basis::Personal { creditor, claim } => {
            add(claims, &claim_of_person(5, false, *creditor, *claim));
        }
        Basis::FromRight { .. } => {}
    }
}

/// Adds what these rights claim.
fn add_of_rights(claims: &mut Vec<Claim>, rights: &[RightFound])
    requires room { vec_len claims.old + 4 * length rights.now ≤ vec_capacity claims.old }
    ensures claims { claims.new.items ≡ claims.old.items ++ filter is_claim (flat_map claims_of_right rights.now) }
    ensures few { vec_len claims.new ≤ vec_len claims.old + 4 * length rights.now }
    ensures capacity { vec_capacity claims.new ≡ vec_capacity claims.old }
{
    for right in rights {
        add_of_right(claims, right);
    }
}

/// Adds what a right claims.
fn add_of_right(claims: &mut Vec<Claim>, right: &RightFound)
    requires room { vec_len claims.old + 4 ≤ vec_capacity claims.old }
    ensures claims { claims.new.items ≡ claims.old.items ++ filter is_claim (claims_of_right right.now) }
    ensures few { vec_len claims.new ≤ vec_len claims.old + 4 }
    ensures capacity { vec_capacity claims.new ≡ vec_capacity claims.old }
{
    let capital = right.capital.get();
    add(
        claims,
        &claim_of_right(right, right.class, false, right.interest, capital),
    );
    add_arrears(claims, right, 8, false, right.old_arrears);
    add_arrears(claims, right, 4, true, right.late_arrears);
    add_arrears(claims, right, 8, true, right.late_old_arrears);
}

/// Adds arrears of a right, where they are of at least one cent. Most rights have none.
fn add_arrears(claims: &mut Vec<Claim>, right: &RightFound, class: u8, late: bool, cents: u64)
    requires room { vec_len claims.old < vec_capacity claims.old }
    ensures claims { claims.new.items ≡ claims.old.items ++ filter is_claim (claim_of_right right.now class late 0 cents ∷ []) }
    ensures few { vec_len claims.new ≤ vec_len claims.old + 1 }
    ensures capacity { vec_capacity claims.new ≡ vec_capacity claims.old }
{
    if cents > 0 {
        push_copy(claims, &claim_of_right(right, class, late, 0, cents));
    }
}

/// Adds a claim, where it is of at least one cent.
fn add(claims: &mut Vec<Claim>, claim: &Claim)
    requires room { vec_len claims.old < vec_capacity claims.old }
    ensures claims { claims.new.items ≡ claims.old.items ++ filter is_claim (claim.now ∷ []) }
    ensures few { vec_len claims.new ≤ vec_len claims.old + 1 }
    ensures capacity { vec_capacity claims.new ≡ vec_capacity claims.old }
{
    if claim.interest > 0 || claim.capital > 0 {
        push_copy(claims, claim);
    }
}

/// A claim of a person, of no right.
fn claim_of_person(class: u8, late: bool, person: Person, amount: Cents) -> Claim
    ensures { result ≡ claim_of_person class late person amount }
{
    Claim {
        class,
        late,
        right: None,
        group: 0,
        person,
        interest: 0,
        capital: amount.get(),
    }
}

/// A claim of a right.
fn claim_of_right(right: &RightFound, class: u8, late: bool, interest: u64, capital: u64) -> Claim
    ensures { result ≡ claim_of_right right.now class late interest capital }
{
    Claim {
        class,
        late,
        right: Some(right.right.id),
        group: right.right.made.spec.group,
        person: right.holder,
        interest,
        capital,
    }
}

/// The class of a public charge that fell due on this day, where the first seizure is of this year.
fn class_of_charge(year: u16, due: Day) -> u8
    requires { 3 ≤ year }
    ensures { result ≡ class_of_charge year due }
{
    if year - 3 <= due.year() { 3 } else { 7 }
}
