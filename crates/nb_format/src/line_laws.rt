//! Laws over the lines. Each is a function that does nothing: its contract is the law. A number is one of at
//! most 128 bits.

ghost use Rattle.std.specs.Prelude.{◌≡◌, ℕ, ◌^◌, ◌<◌, ◌≤◌, List};
ghost use Rattle.nb_model.specs.declared.params.Params.{Params};
ghost use Rattle.nb_model.specs.Valid.{AreInRange};
ghost use Rattle.nb_format.specs.ParamsText.{canonical_line};
ghost use Rattle.nb_format.specs.LineEnds.{IsOneLine};
ghost use Rattle.nb_format.specs.Lines.{started_line, tick_line, done_line, folder_line, once_line, made_line, demo_line};
ghost use Rattle.nb_format.specs.RefusalLines.{IsRefusalLine};

/// Each line on Out has one line end, which is its last byte.
pub fn law_said_lines()
    ensures started { (bodies time : ℕ) → bodies < 2 ^ 128 → time < 2 ^ 128
        → IsOneLine (started_line bodies time) }
    ensures tick { (k time out : ℕ) → k < 2 ^ 128 → time < 2 ^ 128 → out < 2 ^ 128
        → IsOneLine (tick_line k time out) }
    ensures done { (time ticks out : ℕ) → time < 2 ^ 128 → ticks < 2 ^ 128 → out < 2 ^ 128
        → IsOneLine (done_line time ticks out) }
    ensures folder { (time ticks target bodies out : ℕ) → time < 2 ^ 128 → ticks < 2 ^ 128
        → target < 2 ^ 128 → bodies < 2 ^ 128 → out < 2 ^ 128
        → IsOneLine (folder_line time ticks target bodies out) }
    ensures parameter { (params : Params) → AreInRange params → (which : ℕ) → which ≤ 6
        → IsOneLine (canonical_line params which) }
    ensures once { (time ticks out : ℕ) → time < 2 ^ 128 → ticks < 2 ^ 128 → out < 2 ^ 128
        → IsOneLine (once_line time ticks out) }
    ensures made { (bodies : ℕ) → bodies < 2 ^ 128 → IsOneLine (made_line bodies) }
    ensures demo { (bodies out sum : ℕ) → bodies < 2 ^ 128 → out < 2 ^ 128 → sum < 2 ^ 128
        → IsOneLine (demo_line bodies out sum) }
{}

/// Each line on Err has one line end, which is its last byte.
pub fn law_refusal_lines()
    ensures { (line : List ℕ) → IsRefusalLine line → IsOneLine line }
{}

/// The line of a tick tells one tick only.
pub fn law_one_tick()
    ensures { (k time out l when gone : ℕ) → k < 2 ^ 64 → time < 2 ^ 64 → out < 2 ^ 64 → l < 2 ^ 64
        → when < 2 ^ 64 → gone < 2 ^ 64 → tick_line k time out ≡ tick_line l when gone
        → (k ≡ l) × (time ≡ when) × (out ≡ gone) }
{}
