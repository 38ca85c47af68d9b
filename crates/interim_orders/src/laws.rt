//! What holds of all orders, notices, extensions and lapses.
ghost use Rattle.std.specs.Prelude.{◌≡◌, ◌≤◌, ◌<◌, ℕ, List, length, Contains, Some};
ghost use Rattle.gb_base.specs.declared.keys.Key.{Key};
ghost use Rattle.act_model.specs.Touches.{keys_of_filing};
ghost use Rattle.act_model.specs.declared.receipts.Receipt.{Receipt};
ghost use Rattle.folio_sections.specs.Adding.{HasRoom};
ghost use Rattle.interim_orders.specs.Notices.{notices_brought};
ghost use Rattle.folio_sections.specs.Waiting.{waiting_unnoticed};
ghost use Rattle.folio_sections.specs.declared.entries.Entry.{Entry};
ghost use Rattle.interim_orders.specs.Extensions.{extension_brought};
ghost use Rattle.interim_orders.specs.Lapses.{lapse_at, lapse_brought};
ghost use Rattle.interim_orders.specs.Orders.{end_brought, order_brought};

/// Where each key of a filing has room for one entry, there is room for its order, and there is
/// room for the end of its waiting.
pub fn room_for_order()
    ensures order { (journal : List Receipt) (m : ℕ) (room : Key → ℕ)
        → ((k : Key) → Contains (keys_of_filing journal m) k → 1 ≤ room k) → HasRoom room (order_brought journal m) }
    ensures end { (journal : List Receipt) (m i : ℕ) (room : Key → ℕ)
        → ((k : Key) → Contains (keys_of_filing journal m) k → 1 ≤ room k) → HasRoom room (end_brought journal m i) }
{}

/// Where each key of the filing that a lapse names has room for one entry, there is room for what
/// the lapse brings.
pub fn room_for_lapse()
    ensures { (journal : List Receipt) (i : ℕ) (at : Key → List Entry) (room : Key → ℕ)
        → ((m : ℕ) → lapse_at journal i ≡ Some m → m < i → (k : Key) → Contains (keys_of_filing journal m) k → 1 ≤ room k)
        → HasRoom room (lapse_brought journal i at) }
{}

/// Where each key of the filing that an extension names has room for one entry, there is room for
/// what the extension brings.
pub fn room_for_extension()
    ensures { (journal : List Receipt) (m days i : ℕ) (at : Key → List Entry) (room : Key → ℕ)
        → (m < i → (k : Key) → Contains (keys_of_filing journal m) k → 1 ≤ room k) → HasRoom room (extension_brought journal m days i at) }
{}

/// Where each key of a filing has room for as many entries as earlier filings wait there without a
/// notice, there is room for the official notices that its entry brings.
pub fn room_for_notices()
    ensures { (journal : List Receipt) (m i : ℕ) (at : Key → List Entry) (room : Key → ℕ)
        → ((k : Key) → Contains (keys_of_filing journal m) k → length (waiting_unnoticed m (at k)) ≤ room k)
        → HasRoom room (notices_brought journal m i at) }
{}
