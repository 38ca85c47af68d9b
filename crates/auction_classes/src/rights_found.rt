//! The rights of a folio with what is claimed of them in a forced sale (ZVG §§ 10 to 13).
ghost use Rattle.std.specs.Prelude.{◌≡◌, ◌+◌, ◌*◌, ◌≤◌, true, false, All, IsSome, Some, if◌then◌else◌, length, map, vec_capacity};
ghost use Rattle.std.specs.Option.{option_map_or};
ghost use Rattle.folio_sections.specs.Rights.{capital, created, entered_on, holder};
ghost use Rattle.folio_line.specs.FolioReading.{CanBeRead};
ghost use Rattle.gb_base.specs.Limits.{last_stamp_day, most_rate};
ghost use Rattle.auction_classes.specs.Claims.{are_both, arrears_found, arrears_named};
ghost use Rattle.auction_classes.specs.Interest.{arrears_in_class, old_arrears, rate_of};
ghost use Rattle.auction_classes.specs.inner.Findings.{accrual_by, right_with};
ghost use Rattle.auction_classes.specs.inner.InterestLimits.{most_of_term};
ghost use Rattle.auction_classes.specs.inner.LinesRead.{HasLowInterest};
ghost use Rattle.auction_classes.specs.inner.Readings.{IsReadAs, rights_read};

use crate::accruals::{Accrual, end_of_interest, rate_of};
use crate::case_items::Registered;
use crate::counted_days::CountedDays;
use crate::findings::Finding;
use crate::right_classes::class_by;
use act_model::Registration;
use folio_line::{CreatedRight, FolioReading, right_front};
use folio_sections::{Parts, RightFront};
use gb_base::{Cents, Day, Person, RightId, push_copy};

/// A live right of the folio with what is claimed of it, in cents.
#[derive(Clone, Copy)]
pub(crate) struct RightFound {
    pub right: CreatedRight,
    /// 4, or 6 where its filing was received after the first seizure (ZVG § 10(1)).
    pub class: u8,
    pub holder: Person,
    pub capital: Cents,
    /// In its class: the current interest, and the arrears that were registered in time (ZVG § 13).
    pub interest: u64,
    /// Of class 8, registered in time.
    pub old_arrears: u64,
    /// Of its class, registered late.
    pub late_arrears: u64,
    /// Of class 8, registered late.
    pub late_old_arrears: u64,
}

/// Arrears of a right, in cents.
#[derive(Clone, Copy)]
struct Arrears {
    /// Those that the right's own class has.
    in_class: u64,
    /// Those of class 8.
    older: u64,
}

/// The arrears of a right that are registered.
#[derive(Clone, Copy)]
struct ArrearsFound {
    /// In time.
    timely: Arrears,
    /// After the call to bid (ZVG § 110).
    late: Arrears,
}

/// Writes the live rights of a folio with what is claimed of them, in place of what stood there.
/// Takes no memory.
pub(crate) fn write_rights<P: Parts>(
    found: &mut Vec<RightFound>,
    reading: &FolioReading<P>,
    finding: &Finding,
    registrations: &[Registered],
    rights: &[CreatedRight],
)
    requires read { CanBeRead P.holds P.at reading.now }
    requires rights { All (IsReadAs (rights_read P.holds P.at reading.now)) rights.now }
    requires sale { finding.now.sale ≤ last_stamp_day }
    requires few { length registrations.now ≤ 32 }
    requires room { length rights.now ≤ vec_capacity found.old }
    ensures items { found.new.items ≡ map (λ x. right_with finding.now registrations.now x (rights_read P.holds P.at reading.now x.id)) rights.now }
    ensures interest { All HasLowInterest found.new.items }
    ensures capacity { vec_capacity found.new ≡ vec_capacity found.old }
{
    let mut counted = CountedDays::of(finding.current_from, end_of_interest(finding.sale));
    found.clear();
    for right in rights {
        push_copy(
            found,
            &right_read(reading, finding, &mut counted, registrations, right),
        );
    }
}

/// A right of a folio with what is claimed of it.
fn right_read<P: Parts>(
    reading: &FolioReading<P>,
    finding: &Finding,
    counted: &mut CountedDays,
    registrations: &[Registered],
    right: &CreatedRight,
) -> RightFound
    requires read { CanBeRead P.holds P.at reading.now }
    requires right { IsReadAs (rights_read P.holds P.at reading.now) right.now }
    requires sale { finding.now.sale ≤ last_stamp_day }
    requires few { length registrations.now ≤ 32 }
    ensures value { result ≡ right_with finding.now registrations.now right.now (rights_read P.holds P.at reading.now right.now.id) }
    ensures interest { HasLowInterest result }
{
    let front = right_front(reading, right.id).unwrap();
    right_found(finding, counted, registrations, right, &front)
}

/// A right as it is read, with what is claimed of it.
fn right_found(
    finding: &Finding,
    counted: &mut CountedDays,
    registrations: &[Registered],
    right: &CreatedRight,
    front: &RightFront,
) -> RightFound
    requires created { created front.now ≡ Some right.now.made }
    requires rate { rate_of right.now.made.spec.kind ≤ most_rate }
    requires sale { finding.now.sale ≤ last_stamp_day }
    requires few { length registrations.now ≤ 32 }
    ensures value { result ≡ right_with finding.now registrations.now right.now front.now }
    ensures interest { HasLowInterest result }
{
    let accrual = accrual_by(finding, right, front);
    let arrears = arrears_found(&accrual, right.id, registrations);
    RightFound {
        right: *right,
        class: class_by(finding.seized, right.id),
        holder: holder_of(front),
        capital: accrual.capital,
        interest: accrual.current_interest(counted) + arrears.timely.in_class,
        old_arrears: arrears.timely.older,
        late_arrears: arrears.late.in_class,
        late_old_arrears: arrears.late.older,
    }
}

/// The holder of a right that was created.
fn holder_of(front: &RightFront) -> Person
    requires { IsSome (created front.now) }
    ensures { result ≡ option_map_or (λ p. p) (holder front.now) 0 }
{
    front.holder().unwrap()
}

/// What the interest of a right is computed from.
fn accrual_by(finding: &Finding, right: &CreatedRight, front: &RightFront) -> Accrual
    ensures { result ≡ accrual_by finding.now right.now front.now }
{
    Accrual {
        capital: capital_of(front),
        rate: rate_of(right.made.spec.kind),
        entered: entry_day(front),
        sale: finding.sale,
        current_from: finding.current_from,
        arrears_from: finding.arrears_from,
    }
}

/// The capital of a right; 0 where it has none.
fn capital_of(front: &RightFront) -> Cents
    ensures { result ≡ option_map_or (λ c. c) (capital front.now) 0 }
{
    match front.capital() {
        Some(capital) => capital,
        None => Cents::new(0).unwrap(),
    }
}

/// The day on which a right was entered (BGB § 873); day 0 where it was not.
fn entry_day(front: &RightFront) -> Day
    ensures { result ≡ option_map_or (λ day. day) (entered_on front.now) 0 }
{
    match front.entered_on() {
        Some(day) => day,
        None => Day::new(0).unwrap(),
    }
}

/// The arrears that are registered for a right.
fn arrears_found(accrual: &Accrual, right: RightId, registrations: &[Registered]) -> ArrearsFound
    requires rate { accrual.now.rate ≤ most_rate }
    requires few { length registrations.now ≤ 32 }
    ensures timely { result.timely.in_class ≡ arrears_found arrears_in_class false accrual.now right registrations.now }
    ensures timely_older { result.timely.older ≡ arrears_found old_arrears false accrual.now right registrations.now }
    ensures late { result.late.in_class ≡ arrears_found arrears_in_class true accrual.now right registrations.now }
    ensures late_older { result.late.older ≡ arrears_found old_arrears true accrual.now right registrations.now }
    ensures at_most { result.timely.in_class ≤ 32 * most_of_term }
{
    let mut found = ArrearsFound {
        timely: Arrears {
            in_class: 0,
            older: 0,
        },
        late: Arrears {
            in_class: 0,
            older: 0,
        },
    };
    for registered in registrations {
        found.add(accrual, right, registered);
    }
    found
}

impl ArrearsFound {
    /// Adds the arrears that a registration names for a right. Most name another right.
    fn add(&mut self, accrual: &Accrual, right: RightId, registered: &Registered)
        requires rate { accrual.now.rate ≤ most_rate }
        requires few { self.old.timely.in_class + self.old.late.in_class ≤ 31 * most_of_term }
        requires few_older { self.old.timely.older + self.old.late.older ≤ 31 * most_of_term }
        ensures timely { self.new.timely.in_class ≡ self.old.timely.in_class + (if are_both false registered.now.late then arrears_named arrears_in_class accrual.now right registered.now.what else 0) }
        ensures timely_older { self.new.timely.older ≡ self.old.timely.older + (if are_both false registered.now.late then arrears_named old_arrears accrual.now right registered.now.what else 0) }
        ensures late { self.new.late.in_class ≡ self.old.late.in_class + (if are_both true registered.now.late then arrears_named arrears_in_class accrual.now right registered.now.what else 0) }
        ensures late_older { self.new.late.older ≡ self.old.late.older + (if are_both true registered.now.late then arrears_named old_arrears accrual.now right registered.now.what else 0) }
        ensures at_most { self.new.timely.in_class + self.new.late.in_class ≤ self.old.timely.in_class + self.old.late.in_class + most_of_term }
        ensures older_at_most { self.new.timely.older + self.new.late.older ≤ self.old.timely.older + self.old.late.older + most_of_term }
    {
        match &registered.what {
            Registration::Arrears {
                right: named,
                from,
                until,
            } if *named == right => {
                if registered.late {
                    self.late.add(accrual, *from, *until);
                } else {
                    self.timely.add(accrual, *from, *until);
                }
            }
            _ => {}
        }
    }
}

impl Arrears {
    /// Adds the arrears from a day up to another.
    fn add(&mut self, accrual: &Accrual, from: Day, until: Day)
        requires rate { accrual.now.rate ≤ most_rate }
        requires few { self.old.in_class ≤ 31 * most_of_term }
        requires few_older { self.old.older ≤ 31 * most_of_term }
        ensures in_class { self.new.in_class ≡ self.old.in_class + arrears_in_class accrual.now from until }
        ensures older { self.new.older ≡ self.old.older + old_arrears accrual.now from until }
        ensures at_most { self.new.in_class ≤ self.old.in_class + most_of_term }
        ensures older_at_most { self.new.older ≤ self.old.older + most_of_term }
    {
        self.in_class += accrual.arrears_in_class(from, until);
        self.older += accrual.old_arrears(from, until);
    }
}

/// Whether both are late, or both are timely.
pub(crate) fn are_both(a: bool, b: bool) -> bool
    ensures { result ≡ are_both a b }
{
    if a { b } else { !b }
}
