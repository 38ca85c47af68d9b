//! What an opening says of the land.
/// A parcel as the inventory of its folio describes it (GBO § 2).
#[derive(Clone, Copy, Debug, PartialEq, Eq)]
pub struct Inventory {
    /// The cadastral district, from 1.
    pub district: u16,
    /// The number of the parcel in its district, from 1.
    pub parcel: u32,
    /// The number of a part of the parcel; 0 where it has none.
    pub sub: u16,
    /// The area in square metres, from 1 to 1,000,000,000.
    pub area: u32,
}
