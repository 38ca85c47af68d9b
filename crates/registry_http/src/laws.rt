//! Laws of the requests of a link, and of routes.
ghost use Rattle.std.specs.Prelude.{◌≡◌, ◌++◌, ◌⊎◌, ℕ, true, List, Some};
ghost use Rattle.httparse.specs.Grammar.{RequestHead};
ghost use Rattle.registry_http.specs.Heads.{is_refused};
ghost use Rattle.registry_http.specs.RequestParts.{RequestParts};
ghost use Rattle.registry_http.specs.Routes.{path_of, IsRoute};
ghost use Rattle.registry_http.specs.declared.routes.Route.{Route};
ghost use Rattle.registry_http.specs.Requests.{AtFront, BeginsWith, StandsIn, Whole, Nothing, Cut, HeadFault, BodyTooLong, LacksEnd, WantsMore, ReadsNext};
ghost use Rattle.registry_http.specs.RequestLists.{AreRequests, IsNext};
ghost use Rattle.registry_http.specs.declared.requests.Next.{Next};

/// At most one thing stands at the front of bytes. More bytes behind them change nothing of a whole
/// request but what stands behind it, and nothing of a refusal. So however the bytes of a link are
/// cut, they are one list of requests.
pub fn one_request()
    ensures only_one { (bytes : List ℕ) (a b : AtFront) → StandsIn bytes a → StandsIn bytes b → a ≡ b }
    ensures whole { (bytes more rest : List ℕ) (request : RequestParts) → StandsIn bytes (Whole request rest)
        → StandsIn (bytes ++ more) (Whole request (rest ++ more)) }
    ensures refused { (bytes more : List ℕ) → StandsIn bytes HeadFault → StandsIn (bytes ++ more) HeadFault }
    ensures too_long { (bytes more : List ℕ) → StandsIn bytes BodyTooLong → StandsIn (bytes ++ more) BodyTooLong }
{}

/// At the front of any bytes something stands: it is false that nothing does.
pub fn always_one()
    ensures { (bytes : List ℕ) → ¬ ((a : AtFront) → ¬ (StandsIn bytes a)) }
{}

/// The bytes of a link are one list of requests, and what stands behind them: it is false that
/// there is no such list, and there is only one. The answers of
/// `next_request`, one after another, are those requests in turn, and then what stands behind them,
/// however the bytes are cut.
pub fn requests_in_turn()
    ensures some_list { (bytes : List ℕ) → ¬ ((requests : List RequestParts) (last : AtFront) → ¬ (AreRequests bytes requests last)) }
    ensures one_list { (bytes : List ℕ) (a b : List RequestParts) (last end : AtFront)
        → AreRequests bytes a last → AreRequests bytes b end → (a ≡ b) × (last ≡ end) }
    ensures in_turn { (left_old left_new kept_old kept_new : List ℕ) (answer : Next) (requests : List RequestParts) (last : AtFront)
        → ReadsNext (Some left_old) (Some left_new) kept_old kept_new answer
        → AreRequests (kept_old ++ left_old) requests last
        → IsNext answer (kept_new ++ left_new) requests last }
{}

/// More bytes are wanted where nothing or a part of a request stands at the front, and not after a
/// whole request, a whole head that is refused, an end without a head, or too long a body. Where
/// they are wanted, they were wanted before too: so where the last read for an answer was
/// wanted, each read was.
pub fn wanted_bytes()
    ensures lacking { (bytes : List ℕ) → StandsIn bytes Nothing ⊎ StandsIn bytes Cut → WantsMore bytes }
    ensures whole { (bytes rest : List ℕ) (request : RequestParts) → StandsIn bytes (Whole request rest) → ¬ (WantsMore bytes) }
    ensures refused { (bytes behind : List ℕ) (h : RequestHead) → BeginsWith bytes h behind → is_refused h ≡ true → ¬ (WantsMore bytes) }
    ensures no_head { (bytes : List ℕ) → StandsIn bytes HeadFault → ¬ (LacksEnd bytes) → ¬ (WantsMore bytes) }
    ensures too_long { (bytes : List ℕ) → StandsIn bytes BodyTooLong → ¬ (WantsMore bytes) }
    ensures front { (bytes more : List ℕ) → WantsMore (bytes ++ more) → WantsMore bytes }
{}

/// No two routes have one path, so a path has one route and one method at most.
pub fn one_path()
    ensures { (a b : Route) → IsRoute a → IsRoute b → path_of a ≡ path_of b → a ≡ b }
{}
