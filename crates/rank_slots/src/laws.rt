//! Laws of the definitions that contracts cite. Each function does nothing; its contract is the
//! law.
ghost use Rattle.std.specs.Prelude.{◌≡◌, ◌+◌, ◌++◌, ◌≤◌, ℕ, Contains, List, false, filter, length, map, not, replicate, sum_by, true};
ghost use Rattle.gb_base.specs.RightNo.{RightNo, same_right};
ghost use Rattle.rank_slots.specs.CanFill.{CanFill, StandsAlone};
ghost use Rattle.rank_slots.specs.CentLine.{cents_of, exchange, is_of_either};
ghost use Rattle.rank_slots.specs.Filled.{Filled, line, with_swap, without_knots};
ghost use Rattle.rank_slots.specs.Groups.{group_of, keeps_place};
ghost use Rattle.rank_slots.specs.Payments.{claim_of, paid_out, pay, pay_reserved, line_pay, threshold};
ghost use Rattle.rank_slots.specs.declared.places.Knot.{Knot};
ghost use Rattle.rank_slots.specs.declared.places.Swap.{Swap};

/// After an exchange the cents of the two rights stand where theirs stood. The first of them are
/// the rising one's, as many as it had, and the others the receding one's; all other cents are as
/// before (BGB § 880(1), (5)).
pub fn exchange()
    ensures stay { (s : Swap) (line : List RightNo)
        → map (is_of_either s) (exchange line s) ≡ map (is_of_either s) line }
    ensures thirds { (s : Swap) (line : List RightNo)
        → filter (λ c. not (is_of_either s c)) (exchange line s) ≡ filter (λ c. not (is_of_either s c)) line }
    ensures in_order { (s : Swap) (line : List RightNo) → same_right s.recede s.rise ≡ false
        → filter (is_of_either s) (exchange line s)
        ≡ replicate (cents_of s.rise line) s.rise ++ replicate (cents_of s.recede line) s.recede }
{}

/// A further exchange of two rights that are not dropped changes nothing of what every third right
/// gets of each sum (BGB § 880(5)).
pub fn third_rights()
    ensures kept { (filled : Filled) (s : Swap) (right : RightNo) (t : ℕ) → CanFill (with_swap filled s)
        → keeps_place filled.places s.recede ≡ true → keeps_place filled.places s.rise ≡ true
        → is_of_either s right ≡ false
        → pay (with_swap filled s) right t ≡ pay filled right t }
{}

/// An exercised right never gets more than its claim, and with the knots as much is handed out as
/// without them (BGB § 881).
pub fn knots()
    ensures within { (filled : Filled) (k : Knot) (t : ℕ) → CanFill filled → Contains filled.knots k
        → pay filled k.exercised t ≤ claim_of filled.places k.exercised }
    ensures handed_out { (filled : Filled) (t : ℕ) → CanFill filled → paid_out filled t ≡ paid_out (without_knots filled) t }
{}

/// Up to its threshold a right gets nothing. Of a sum that is one cent greater it gets this cent
/// where it stands alone, whether a knot ties it or not; else the members of its group get the cent
/// among them (BGB §§ 879, 881).
pub fn threshold()
    ensures nothing { (filled : Filled) (right : RightNo) (t : ℕ) → CanFill filled
        → t ≤ threshold filled right → pay filled right t ≡ 0 }
    ensures alone { (filled : Filled) (right : RightNo) → CanFill filled
        → keeps_place filled.places right ≡ true → StandsAlone filled.places right
        → pay filled right (threshold filled right + 1) ≡ 1 }
    ensures group { (filled : Filled) (right : RightNo) → CanFill filled
        → keeps_place filled.places right ≡ true
        → sum_by (λ p. pay filled p.right (threshold filled right + 1)) (group_of filled.places right) ≡ 1 }
{}

/// What an exercised right gets is a true difference: the reserved one gets no more than both get
/// knots left aside. So both together get what they get without the knots (BGB § 881).
pub fn pay_exercised()
    ensures uncut { (filled : Filled) (k : Knot) (t : ℕ) → CanFill filled → Contains filled.knots k
        → pay_reserved filled k t ≤ line_pay filled k.reserved t + line_pay filled k.exercised t }
    ensures together { (filled : Filled) (k : Knot) (t : ℕ) → CanFill filled → Contains filled.knots k
        → pay filled k.reserved t + pay filled k.exercised t
        ≡ pay (without_knots filled) k.reserved t + pay (without_knots filled) k.exercised t }
{}

/// Of a sum as great as the line each right that is not dropped gets its whole claim, whatever was
/// exchanged and whether a knot ties it or not; and the line is as long as these claims together
/// (BGB §§ 879 to 881).
pub fn whole_line()
    ensures length { (filled : Filled) → CanFill filled
        → length (line filled) ≡ sum_by (λ p. p.claim) (filter (λ p. not p.dropped) filled.places) }
    ensures paid { (filled : Filled) (right : RightNo) → CanFill filled
        → keeps_place filled.places right ≡ true
        → pay filled right (length (line filled)) ≡ claim_of filled.places right }
{}
