//! What a reader tells of the events of its stream, and what holds of messages in any bytes.

ghost use Rattle.std.specs.Prelude.{◌≡◌, ◌++◌, ◌<◌, ◌≤◌, ◌^◌, ◌∷◌, [], Bool, List, Option, Result, false, length, ℕ};
ghost use Rattle.ext_msgs.specs.declared.lists.Field.{Field};
ghost use Rattle.h2_model.specs.declared.answers.Event.{Event};
ghost use Rattle.h2_model.specs.declared.answers.Event.TheVariants as event;
ghost use Rattle.grpc_call.specs.declared.fault.CallFault.{CallFault};
ghost use Rattle.grpc_call.specs.Framed.{Whole, first};
ghost use Rattle.grpc_call.specs.Items.{Closed, DataTold, HeadTold, IsOver, StandsFor, heard, items};
ghost use Rattle.grpc_call.specs.Reading.{ReadsData, Response, begun, block_in, headed_by, told_by};
ghost use Rattle.grpc_call.specs.Written.{framed_message};

/// A new reader stands for a stream of which nothing came.
pub fn reader_begins()
    ensures { (limit : ℕ) → StandsFor (begun limit) [] }
{}

/// After a block a reader stands for its stream with this block, and what it answers is what the stream brought by it.
pub fn heads_are_told()
    ensures { (r : Response) (events : List Event) (id : ℕ) (fields : List Field) (last : Bool) → StandsFor r events
        → HeadTold r events (event.Head id fields last) (told_by (block_in r fields last))
        (headed_by (block_in r fields last) r) }
{}

/// After DATA a reader stands for its stream with the bytes that it used, and what it answers is what the stream
/// brought by them.
pub fn data_is_told()
    ensures { (r new : Response) (events : List Event) (id : ℕ) (bytes : List ℕ) (last : Bool)
        (result : Result (Option (List ℕ × ℕ)) CallFault)
        → StandsFor r events → ReadsData r bytes last result new → DataTold r events id bytes last result new }
{}

/// However DATA is cut, a stream brings the same.
pub fn cut_data_is_joined()
    ensures { (events : List Event) (id : ℕ) (xs ys : List ℕ) (last : Bool)
        → heard (event.Data id ys last ∷ event.Data id xs false ∷ events) ≡ heard
        (event.Data id (xs ++ ys) last ∷ events) }
{}

/// A reset closes a stream that goes on, and nothing follows a message that is too long or a closing.
pub fn ends_are_told()
    ensures reset { (r : Response) (events : List Event) (id code : ℕ) → StandsFor r events
        → items r.limit (event.Reset id code ∷ events) ≡ items r.limit events ++ (Closed false ∷ []) }
    ensures over { (limit : ℕ) (events : List Event) (e : Event) → IsOver limit events
        → items limit (e ∷ events) ≡ items limit events }
{}

/// What is written for a message is read back, whatever comes behind it.
pub fn written_message_is_read()
    ensures { (limit : ℕ) (message more : List ℕ) → length message ≤ limit → length message < 2 ^ 32
        → first limit (framed_message message ++ more) ≡ Whole message }
{}
