//! Laws of the definitions, as contracts of functions that do nothing.
ghost use Rattle.filter_model.specs.View.{ViewEntry};
ghost use Rattle.hub_model.specs.Allowed.{IsHubHistory};
ghost use Rattle.hub_model.specs.Apart.{brings};
ghost use Rattle.hub_model.specs.Happens.{view, world};
ghost use Rattle.hub_model.specs.HubCalls.{Fed, HubCall, HubConfig, place};
ghost use Rattle.hub_model.specs.HubRight.{RightGiven, StreamsRight, WholeOf, is_noise};
ghost use Rattle.hub_model.specs.Meeting.{meet};
ghost use Rattle.hub_model.specs.World.{World, line};
ghost use Rattle.hub_model.specs.declared.ports.PortName.TheVariants as port;
ghost use Rattle.std.specs.Prelude.{List, false, length, take, ◌<◌, ◌∷◌, ◌≡◌, ℕ};

/// In every history of a hub each exchange does right: what each of its sides got is the first of what may go to it.
/// And each gives all that is whole: once both messages have arrived, every ask is answered and nothing waits, both
/// were given whole.
pub fn each_exchange_right()
    ensures given { (c : HubConfig) (h : List HubCall) → IsHubHistory c h → (x : ℕ) →
        RightGiven c (line (place x) (world c h)) }
    ensures whole { (c : HubConfig) (h : List HubCall) → IsHubHistory c h → (x : ℕ) → WholeOf c x h }
{}

/// In every history of a hub each stream belongs to one exchange. What is handed over on it is one head, that of the
/// call; DATA that joins to the first of the exchange's framed asks, in the order in which they were made; and at most
/// one end, which was due. Behind END_STREAM a reset follows at most, of a stream that is kept no longer.
pub fn streams_right()
    ensures { (c : HubConfig) (h : List HubCall) → IsHubHistory c h → StreamsRight c (world c h) }
{}

/// An entry of one exchange leaves every other as it was: its view, its stream and what came on it.
pub fn others_untouched()
    ensures { (c : HubConfig) (k j : ℕ) (e : ViewEntry) (w : World) → (j ≡ k → ⊥) → line j (meet c k e w) ≡ line j w }
{}

/// Bytes of the processor change the view of an exchange only by what they bring on its own stream, or where they end
/// the connection.
pub fn streams_apart()
    ensures { (c : HubConfig) (h : List HubCall) (x n : ℕ) (bytes : List ℕ) →
        brings c (line (place x) (world c h)).stream (take n bytes) (world c h) ≡ false →
        view c x (Fed port.Processor bytes n ∷ h) ≡ view c x h }
{}

/// A call that isn't near an exchange leaves its view as it was.
pub fn distant_calls_are_silent()
    ensures { (c : HubConfig) (call : HubCall) (h : List HubCall) (x : ℕ) → place x < length (world c h).lines →
        is_noise (place x) call ≡ false → view c x (call ∷ h) ≡ view c x h }
{}
