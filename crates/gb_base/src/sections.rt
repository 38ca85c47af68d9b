//! The sections that answers name.
/// The sections of the statutes that answers name, and the office's own limit.
#[derive(Clone, Copy, Debug, PartialEq, Eq, PartialOrd, Ord)]
pub enum Section {
    /// GBO § 3: each parcel has its own folio.
    Gbo3,
    /// GBO § 13: who may apply.
    Gbo13,
    /// GBO § 16: no application under a condition.
    Gbo16,
    /// GBO § 18: interim order, and rejection when its deadline has passed.
    Gbo18,
    /// GBO § 19: the consent of whoever is affected.
    Gbo19,
    /// GBO § 20: the agreement on a transfer.
    Gbo20,
    /// GBO § 27: the owner's consent to the cancellation of a mortgage or land charge.
    Gbo27,
    /// GBO § 29: the form of documents.
    Gbo29,
    /// GBO § 39: prior registration of whoever is affected.
    Gbo39,
    /// BGB § 873: a right arises by agreement and entry.
    Bgb873,
    /// BGB § 876: consent of whoever has a right in the right.
    Bgb876,
    /// BGB § 880: exchange of ranks.
    Bgb880,
    /// BGB § 881: reservation of rank.
    Bgb881,
    /// BGB § 883: priority notice.
    Bgb883,
    /// BGB § 1059: a usufruct is not assigned.
    Bgb1059,
    /// GrEStG § 22: tax clearance.
    Grest22,
    /// ZVG § 15: the order of sale.
    Zvg15,
    /// ZVG § 23: the seizure forbids later rights.
    Zvg23,
    /// ZVG § 43: service on the debtor in time.
    Zvg43,
    /// ZVG § 66: the call to bid.
    Zvg66,
    /// ZVG § 81: the award.
    Zvg81,
    /// ZVG § 113: the distribution plan.
    Zvg113,
    /// A limit of the office.
    Limit,
}
