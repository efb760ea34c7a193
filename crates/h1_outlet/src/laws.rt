//! Laws of the definitions, as contracts of functions that do nothing.

ghost use Rattle.filter_model.specs.Account.{given_count, is_given_at};
ghost use Rattle.filter_model.specs.AllGiven.{is_all_handed};
ghost use Rattle.filter_model.specs.Half.{Past, Gave, MayGive, after_step, becomes, progress};
ghost use Rattle.filter_model.specs.HalfRight.{IsPast};
ghost use Rattle.h1_outlet.specs.Halves.{flow_of};
ghost use Rattle.h1_outlet.specs.Outlets.{all, body_in, with_part};
ghost use Rattle.h1_outlet.specs.Stands.{StandsFor, MayPut};
ghost use Rattle.h1_outlet.specs.declared.outlet.Outlet.{Outlet};
ghost use Rattle.http_model.specs.declared.types.Out.{Out};
ghost use Rattle.std.specs.Prelude.{◌≡◌, ◌==◌, ◌&&◌, List, ℕ, length, take};

/// An outlet that is handed what a half hands out, each part once nothing waits: it may be put, the outlet counts the
/// body bytes that the side was given, and the side was given all of its message exactly where all of it was handed out
/// and nothing waits.
pub fn outlet_of_half()
    ensures put { (p : Past) → IsPast p → (front : List ℕ) (n : ℕ) → n ≡ length (all (flow_of p front n))
        → (max : ℕ) (out : Out) → MayGive max (becomes p) (progress p).taken out → MayPut (flow_of p front n) out }
    ensures handed { (p : Past) (front : List ℕ) (n : ℕ) (out : Out) →
        flow_of (after_step (Gave out) p) front n ≡ with_part out (flow_of p front n) }
    ensures counted { (p : Past) → IsPast p → (front : List ℕ) (n : ℕ) →
        given_count p.direction (becomes p).head front (take n (all (flow_of p front n)))
        ≡ body_in (flow_of p front n) n }
    ensures given { (p : Past) → IsPast p → (front : List ℕ) (n : ℕ) (x : Outlet) → StandsFor (flow_of p front n) x →
        is_given_at p.direction (becomes p).head (becomes p) front (take n (all (flow_of p front n)))
        ≡ (is_all_handed (becomes p) (progress p).taken && n == length (all (flow_of p front n))) }
{}
