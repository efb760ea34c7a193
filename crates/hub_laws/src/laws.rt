//! Laws, as contracts of functions that do nothing.
ghost use Rattle.filter_model.specs.declared.calls.Taken.{Taken};
ghost use Rattle.hub_laws.specs.Outgoing.{StreamOut, frames_out};
ghost use Rattle.hub_laws.specs.Windows.{AllWithin};
ghost use Rattle.hub_model.specs.Allowed.{IsHubHistory};
ghost use Rattle.hub_model.specs.Happens.{world};
ghost use Rattle.hub_model.specs.HubCalls.{Gave, Handing, HubCall, HubConfig};
ghost use Rattle.hub_model.specs.World.{line};
ghost use Rattle.std.specs.Prelude.{List, Some, ◌∷◌, ◌≡◌, ℕ};

/// In every history of a hub what goes out on the stream of an exchange is one head first, that of the call; then DATA
/// whose bytes, joined, are the first of the exchange's framed asks, in the order in which they were made; then
/// nothing, END_STREAM, a reset, or a reset behind END_STREAM. END_STREAM was due. A reset has CANCEL and an end was
/// due, or it is the session's own, for a fault of the peer that was told. RFC 9113 sections 5.1 and 8.1.
///
/// `frames_out` has the frames that were given and those that wait, in their order, but for updates of the window.
pub fn streams_go_out_right()
    ensures { (c : HubConfig) (h : List HubCall) → IsHubHistory c h → (k id : ℕ) →
        (line k (world c h)).stream ≡ Some id →
        StreamOut c (line k (world c h)) (world c h).session.log (frames_out id (world c h).session) }
{}

/// No window is passed: each piece of DATA that is handed over is no longer than the connection's window and its
/// stream's at that moment. RFC 9113 section 6.9.1.
pub fn windows_are_kept()
    ensures { (c : HubConfig) (xs : List Handing) (t : Taken) (h : List HubCall) → IsHubHistory c (Gave xs t ∷ h) →
        AllWithin c xs (world c h).session }
{}
