//! Laws of the definitions, as contracts of functions that do nothing.
ghost use Rattle.ext_msgs.specs.Spelling.{ask};
ghost use Rattle.ext_msgs.specs.declared.answer.Answer.{Answer as Answering};
ghost use Rattle.ext_msgs.specs.declared.answer.Common.{Common};
ghost use Rattle.ext_msgs.specs.declared.answer.ModeNumbers.{ModeNumbers};
ghost use Rattle.ext_msgs.specs.declared.answer.Span.{Span};
ghost use Rattle.ext_msgs.specs.declared.modes.PartModes.{PartModes};
ghost use Rattle.filter_model.specs.Account.{ExchangeAccount, Left, Live, course, flow, from, front, gathered, given_count, is_finished, is_given, is_in, is_out_in, is_released, is_to_head, settled, to, unsent, is_given_at};
ghost use Rattle.filter_model.specs.AllGiven.{is_all_handed, is_nothing};
ghost use Rattle.filter_model.specs.Answers.{ask_of, answered, extended_by, override_of};
ghost use Rattle.filter_model.specs.Config.{CourseConfig, FilterConfig};
ghost use Rattle.filter_model.specs.Course.{Course, Changed, asked, body_of, body_room, changed, committed, due, is_headers, is_over, out, queue};
ghost use Rattle.filter_model.specs.Cut.{AnswerKind, Cut, PartAnswer, fault_cut, is_whole_and_done, part_cut, peer_cut, processor_cut};
ghost use Rattle.filter_model.specs.Given.{data_in};
ghost use Rattle.filter_model.specs.Grown.{Grown};
ghost use Rattle.filter_model.specs.Half.{HalfCall, Answer, Release, Settle, Sent as OneSent, Given as SoManyGiven, Past, Taken, MayGive, NothingDue, becomes, called, course as past_course, parts, progress, refusal, settled_modes};
ghost use Rattle.filter_model.specs.HalfRight.{IsPast, written_parts, framing_in, has_trailers, part_bytes};
ghost use Rattle.filter_model.specs.Outgoing.{IsWire};
ghost use Rattle.filter_model.specs.InTurn.{asks_in};
ghost use Rattle.filter_model.specs.Right.{Call, Stepped, Took, Headline, IsHistory, account, ask_given, is_done};
ghost use Rattle.filter_model.specs.Sides.{IsReadOf, read_cut};
ghost use Rattle.filter_model.specs.Sound.{Sound};
ghost use Rattle.filter_model.specs.Step.{cut, ending_of, fate_under, is_departure, is_live, step, still_counts};
ghost use Rattle.filter_model.specs.Told.{Comes, IsLetPass, IsNoCut, IsOfProcessor, IsOfSides, IsShort, ReadWell, asks_behind, known, more_given, news, told};
ghost use Rattle.filter_model.specs.ToldMore.{AllFit, Arrives, BringsNoAnswer, EndsStream, FitUntilOver, IsAnswerTo, IsOfNoSide, IsTaken, ReadsNothing, SameRest, across, cut_for, head_news, other_calls, own_calls};
ghost use Rattle.filter_model.specs.View.{ViewEntry, Answered, Given, Lost, Sent, Starved};
ghost use Rattle.filter_model.specs.declared.calls.Loss.{Loss};
ghost use Rattle.filter_model.specs.declared.calls.Side.{Side};
ghost use Rattle.filter_model.specs.declared.calls.Taken.TheVariants.{Piece};
ghost use Rattle.http_model.specs.Bytes.{IsPrefix};
ghost use Rattle.http_model.specs.Reads.{Original, reads};
ghost use Rattle.http_model.specs.declared.types.Direction.{Direction};
ghost use Rattle.http_model.specs.declared.types.Direction.TheVariants.{Request, Response};
ghost use Rattle.http_model.specs.declared.types.Out.{Out};
ghost use Rattle.std.specs.List.{list_any};
ghost use Rattle.std.specs.Prelude.{None, Option, Some, is_some, Bool, List, [], map, reverse, filter_map, true, false, ◌∷◌, ◌++◌, ◌≡◌, ◌≤◌, ◌+◌, ◌-◌, ◌⊎◌, ℕ, drop, length, take, if◌then◌else◌, ◌&&◌, ◌<◌, nat_le};

/// In every history the asks that went out are the first of those made, in order.
pub fn asks_in_order()
    ensures { (c : FilterConfig) (h : List Call) → IsHistory c h →
        IsPrefix (reverse (filter_map ask_given h)) (map ask (account c h).made) }
{}

/// Along a history what a message has become only grows: its head and framing stay, and an end is final.
pub fn changed_only_grows()
    ensures { (c : FilterConfig) (call : Call) (h : List Call) → IsHistory c (call ∷ h) → (d : Direction) →
        Grown (changed c.course d (course d (account c h)))
        (changed c.course d (course d (account c (call ∷ h)))) }
{}

/// Bytes that are the first of what a message may go out as stay so while it grows.
pub fn prefixes_stay()
    ensures { (d : Direction) (m m' : Changed) → Grown m m' → (bytes wire : List ℕ) →
        IsWire d m wire → IsPrefix bytes wire → (wire' : List ℕ) × IsWire d m' wire' × IsPrefix bytes wire' }
{}

/// In every history of an exchange by itself it does right: what each side got is the first of what may go to it, the
/// asks that went out are the first of those made, and the stream is ended at most once, as is due. And it gives all
/// that is whole: once both messages have arrived, every ask is answered and nothing waits, both were given whole.
pub fn headline()
    ensures { Headline }
{}

/// What each entry leaves standing: asks that were made, and an end; a `Sent` counts for one ask; and a loss that
/// leaves an exchange alive came behind everything, or to a side that was whole and done.
pub fn each_step()
    ensures asks { (c : FilterConfig) (e : ViewEntry) (a : ExchangeAccount) → IsPrefix a.made (step c e a).made }
    ensures fate { (c : FilterConfig) (e : ViewEntry) (a : ExchangeAccount) → is_live a.fate ≡ false
        → (step c e a).fate ≡ a.fate }
    ensures sent { (c : FilterConfig) (e : ViewEntry) (a : ExchangeAccount) →
        (a.sent ≤ (step c e a).sent) × ((step c e a).sent ≤ a.sent + 1) }
    ensures loss { (c : FilterConfig) (s : Side) (how : Loss) (a : ExchangeAccount) → is_live a.fate ≡ true →
        (step c (Lost s how) a).fate ≡ Live → (is_finished c a ≡ true) ⊎ (is_whole_and_done c a s ≡ true) }
{}

/// What was handed out in a past of one direction, written, is the first of what its message may go out as, and all of
/// it where no part may go. What may go in smaller pieces may go in greater ones.
pub fn parts_are_the_first()
    ensures first { (p : Past) → IsPast p → (wire : List ℕ) × IsWire p.direction (becomes p) wire
        × IsPrefix (written_parts p.direction (parts p.steps)) wire }
    ensures all { (p : Past) → IsPast p → NothingDue (becomes p) (progress p).taken
        → IsWire p.direction (becomes p) (written_parts p.direction (parts p.steps)) }
    ensures wider { (max more : ℕ) (m : Changed) (t : Taken) (out : Out) → max ≤ more → MayGive max m t out
        → MayGive more m t out }
{}

/// Once a side is done it stays so.
pub fn done_stays()
    ensures { (c : FilterConfig) (call : Call) (h : List Call) → IsHistory c (call ∷ h) → (s : Side) →
        is_done c (account c h) s ≡ true → is_done c (account c (call ∷ h)) s ≡ true }
{}

/// No rule of a course reads what the reader alone knows: the course that a half has, without that, makes the same
/// asks, chooses the same head and becomes the same message, and each call of a half leaves it out too.
pub fn known_is_enough()
    ensures committed { (c : CourseConfig) (d : Direction) (w : Course) →
        committed c d (known w) ≡ known (committed c d w) }
    ensures asked { (c : CourseConfig) (d : Direction) (w : Course) → asked c d (known w) ≡ known (asked c d w) }
    ensures called { (call : HalfCall) (w : Course) → called call (known w) ≡ known (called call w) }
    ensures changed { (c : CourseConfig) (d : Direction) (w : Course) → changed c d (known w) ≡ changed c d w }
    ensures queue { (c : CourseConfig) (d : Direction) (w : Course) → queue c d (known w) ≡ queue c d w }
    ensures room { (c : CourseConfig) (d : Direction) (w : Course) → body_room c d (known w) ≡ body_room c d w }
    ensures over { (c : CourseConfig) (w : Course) → is_over c (known w) ≡ is_over c w }
    ensures refusal { (c : CourseConfig) (d : Direction) (w : Course) (kind : AnswerKind) (a : Common) →
        refusal c d (known w) kind a ≡ refusal c d w kind a }
{}

/// A half that is told in turn what its side brings comes to the course that the account makes of all of it at once.
pub fn reading_told()
    ensures told { (c : CourseConfig) (d : Direction) (w : Course) (now : Original) → Comes c d w now →
        told c d (news c d (known w) now) (known w)
        ≡ known (asked c d (committed c d (record w { original = now }))) }
    ensures well { (d : Direction) (to_head : Bool) (bytes : List ℕ) (ended : Bool) →
        ReadWell (reads d to_head bytes ended) }
{}

/// What a side was given, the first bytes of the front and of the parts that were handed out, has as many body bytes as
/// these parts say. So a writer counts the bytes of each part that it gives, and reads nothing back.
pub fn given_is_counted()
    ensures { (p : Past) → IsPast p → (front : List ℕ) (n : ℕ) →
        given_count p.direction (becomes p).head front (take n (front ++ written_parts p.direction (parts p.steps)))
        ≡ data_in p.direction (parts p.steps) (n - length front) }
{}

/// A side has all of its message once all of it was handed out and every byte of that was given; and what is handed out
/// before has bytes. So a writer knows it by the parts alone. Before the head no part has a framing.
pub fn all_is_given()
    ensures all { (p : Past) → IsPast p → (front : List ℕ) (n : ℕ) →
        is_given_at p.direction (becomes p).head (becomes p) front
        (take n (front ++ written_parts p.direction (parts p.steps)))
        ≡ (is_all_handed (becomes p) (progress p).taken
        && nat_le (length (front ++ written_parts p.direction (parts p.steps))) n) }
    ensures more { (p : Past) → IsPast p → (max : ℕ) (out : Out) → MayGive max (becomes p) (progress p).taken out
        → is_nothing out ≡ false → is_all_handed (becomes p) (progress p).taken ≡ false
        → 0 < length (part_bytes p.direction (framing_in (parts p.steps)) (has_trailers (parts p.steps)) out) }
    ensures unframed { (p : Past) → IsPast p → (progress p).taken.head ≡ false → framing_in (parts p.steps) ≡ None }
{}

/// In a past of one direction no more of the body was given than handed out, and no more handed out than there is. So
/// the bytes that wait are those that were handed out and not given, and those that weren't handed out.
pub fn what_waits()
    ensures given { (p : Past) → IsPast p → (past_course p).given ≤ (progress p).taken.body }
    ensures handed { (p : Past) → IsPast p → (progress p).taken.body ≤ length (body_of (becomes p)) }
    ensures waits { (p : Past) → IsPast p → queue p.config p.direction (past_course p)
        ≡ ((progress p).taken.body - (past_course p).given)
        + length (drop (progress p).taken.body (body_of (becomes p))) }
{}

/// One entry of the two sides that is no cut: the half of each direction is told what its reader makes of it, which is
/// nothing in the other direction, and has then the account's course. The asks that the halves make meanwhile are those
/// of the account, the request's first.
pub fn entry_told()
    ensures told { (c : FilterConfig) (h : List Call) (e : ViewEntry) → IsHistory c (Stepped e ∷ h) → IsOfSides e
        → IsNoCut c e (account c h) → c.course.piece ≤ c.course.mark → (d : Direction)
        → IsShort c (course d (account c h)) (course d (gathered e (account c h)))
        → known (course d (account c (Stepped e ∷ h)))
        ≡ told c.course d (news c.course d (known (course d (account c h)))
        (course d (gathered e (account c h))).original) (known (course d (account c h))) }
    ensures made { (c : FilterConfig) (e : ViewEntry) (a : ExchangeAccount) → IsOfSides e → IsNoCut c e a
        → (step c e a).made ≡ (a.made ++ asks_behind Request a.request.course (step c e a).request.course)
        ++ asks_behind Response a.response.course (step c e a).response.course }
    ensures none { (c : CourseConfig) (d : Direction) (w : Course) → news c d (known w) w.original ≡ [] }
{}

/// In every list of calls at most four asks of a direction aren't sent, and at most eight of both. So eight marks keep
/// the order in which they were made.
pub fn few_unsent()
    ensures each { (c : FilterConfig) (h : List Call) (d : Direction) →
        length (course d (account c h)).asks ≤ (course d (account c h)).sent + 4 }
    ensures both { (c : FilterConfig) (h : List Call) → length (account c h).made ≤ (account c h).sent + 8 }
{}

/// What else the halves are told: that an ask was sent, which its own direction is told; that body bytes were given,
/// which the direction to that side is told; and a release, where a cut lets the rest pass.
pub fn calls_told()
    ensures sent { (c : FilterConfig) (h : List Call) → IsHistory c (Stepped Sent ∷ h) → IsNoCut c Sent (account c h)
        → (d : Direction) → known (course d (account c (Stepped Sent ∷ h)))
        ≡ told c.course d (if is_in d (unsent (account c h)) then OneSent ∷ [] else [])
        (known (course d (account c h))) }
    ensures given { (c : FilterConfig) (h : List Call) (s : Side) (bytes : List ℕ) →
        IsHistory c (Took s (Piece bytes) ∷ h) → IsNoCut c (Given s bytes) (account c h)
        → known (course (to s) (account c (Took s (Piece bytes) ∷ h)))
        ≡ told c.course (to s) (SoManyGiven (more_given s bytes (account c h)) ∷ [])
        (known (course (to s) (account c h))) }
    ensures other { (c : FilterConfig) (h : List Call) (s : Side) (bytes : List ℕ) →
        IsHistory c (Took s (Piece bytes) ∷ h) → IsNoCut c (Given s bytes) (account c h)
        → known (course (from s) (account c (Took s (Piece bytes) ∷ h))) ≡ known (course (from s) (account c h)) }
    ensures release { (c : FilterConfig) (h : List Call) (e : ViewEntry) (k : Cut) → IsHistory c (Stepped e ∷ h)
        → IsOfProcessor e → IsLetPass c e (account c h) k → (d : Direction)
        → known (course d (account c (Stepped e ∷ h)))
        ≡ told c.course d (Release ∷ []) (known (course d (account c h))) }
{}

/// Other modes change nothing by themselves, while the headers ask is out or before the head. So an answer with a mode
/// override is told in two calls, the modes and then the answer, and comes to what both make at once.
pub fn settles_first()
    ensures waits { (c : CourseConfig) (d : Direction) (w : Course) (modes : PartModes) → Sound c w → w.released ≡ false
        → is_some w.original.head ≡ true → list_any is_headers (out w) ≡ true
        → asked c d (committed c d (called (Settle modes) w)) ≡ called (Settle modes) w }
    ensures early { (c : CourseConfig) (d : Direction) (w : Course) (modes : PartModes) → w.original.head ≡ None
        → asked c d (committed c d (called (Settle modes) w)) ≡ called (Settle modes) w }
    ensures at_once { (c : CourseConfig) (d : Direction) (w : Course) (modes : PartModes) (a : Common) → Sound c w
        → w.released ≡ false → is_some w.original.head ≡ true → list_any is_headers (out w) ≡ true
        → told c d (Settle modes ∷ Answer a ∷ []) w ≡ asked c d (committed c d (record w {
          modes = settled_modes w.original.head w.modes modes;
          answers = w.answers ++ a ∷ [];
        })) }
{}

/// While an exchange lives no body is past its limit: the entry that would take it there is the cut. So an entry that
/// brings nothing of a message, and no answer, is a cut only where it says so itself: bytes that were given and an ask
/// that was sent never are.
pub fn never_over()
    ensures within { (c : FilterConfig) (h : List Call) → IsHistory c h → is_live (account c h).fate ≡ true
        → (d : Direction) → is_over c.course (course d (account c h)) ≡ false }
    ensures none { (c : FilterConfig) (h : List Call) (e : ViewEntry) → IsHistory c h
        → is_live (account c h).fate ≡ true → ReadsNothing e
        → processor_cut c (gathered e (account c h)) e ≡ None → peer_cut c (gathered e (account c h)) e ≡ None
        → IsNoCut c e (account c h) }
    ensures given { (c : FilterConfig) (h : List Call) (s : Side) (bytes : List ℕ) → IsHistory c h
        → is_live (account c h).fate ≡ true → IsNoCut c (Given s bytes) (account c h) }
    ensures sent { (c : FilterConfig) (h : List Call) → IsHistory c h → is_live (account c h).fate ≡ true
        → IsNoCut c Sent (account c h) }
{}

/// A half that was told says whether its body is past its limit as the account does, whether the entry is the cut or
/// not: heads that are chosen and asks that are made change nothing of it, nor does it matter that the half is told the
/// entry in turn.
pub fn over_told()
    ensures call { (c : CourseConfig) (d : Direction) (w : Course) → length w.answers ≤ length w.asks →
        is_over c (asked c d (committed c d w)) ≡ is_over c w }
    ensures news { (c : CourseConfig) (d : Direction) (w : Course) (now : Original) → Arrives c d w now →
        is_over c (told c d (news c d (known w) now) (known w)) ≡ is_over c (record w { original = now }) }
    ensures entry { (c : FilterConfig) (h : List Call) (e : ViewEntry) → IsHistory c (Stepped e ∷ h) → IsOfSides e
        → is_live (account c h).fate ≡ true → c.course.piece ≤ c.course.mark → (d : Direction) →
        is_over c.course (told c.course d (news c.course d (known (course d (account c h)))
        (course d (gathered e (account c h))).original) (known (course d (account c h))))
        ≡ is_over c.course (course d (gathered e (account c h))) }
    ensures own { (c : FilterConfig) (h : List Call) (x : Answering) (p : PartAnswer) → IsHistory c h
        → is_live (account c h).fate ≡ true → IsAnswerTo c x p (account c h) → part_cut c (account c h) p ≡ None →
        is_over c.course (told c.course p.direction
        (own_calls p.direction (override_of c p.kind x.modes) p.common) (known (course p.direction (account c h))))
        ≡ is_over c.course (course p.direction (answered c (Answered (Some x)) (account c h))) }
    ensures other { (c : FilterConfig) (h : List Call) (x : Answering) (p : PartAnswer) → IsHistory c h
        → is_live (account c h).fate ≡ true → IsAnswerTo c x p (account c h) → part_cut c (account c h) p ≡ None →
        is_over c.course (told c.course (across p.direction)
        (other_calls p.direction (override_of c p.kind x.modes)) (known (course (across p.direction) (account c h))))
        ≡ is_over c.course (course (across p.direction) (answered c (Answered (Some x)) (account c h))) }
{}

/// While an exchange lives each of its accounts is at rest: heads that can go are chosen, no ask is due, and the body
/// bytes that were given are counted. Its courses are sound whatever came, and the rest passes both ways at once.
pub fn at_rest()
    ensures head { (c : FilterConfig) (h : List Call) → IsHistory c h → is_live (account c h).fate ≡ true
        → (d : Direction) → committed c.course d (course d (account c h)) ≡ course d (account c h) }
    ensures asks { (c : FilterConfig) (h : List Call) → IsHistory c h → is_live (account c h).fate ≡ true
        → (d : Direction) → due c.course d (course d (account c h)) ≡ [] }
    ensures given { (c : FilterConfig) (h : List Call) → IsHistory c h → is_live (account c h).fate ≡ true
        → (d : Direction) → (course d (account c h)).given
        ≡ given_count d (course d (account c h)).head (front d (account c h)) (flow d (account c h)).given }
    ensures sound { (c : FilterConfig) (h : List Call) → IsHistory c h → (d : Direction) →
        Sound c.course (course d (account c h)) }
    ensures released { (c : FilterConfig) (h : List Call) → IsHistory c h →
        (account c h).response.course.released ≡ (account c h).request.course.released }
{}

/// An answer to a part that is no cut, while answers count: its direction is told the modes that it brings, while the
/// headers ask is out, and then the answer, which its half doesn't refuse; where it does, that is the cut. The response
/// is told the modes that an answer to the request's headers brings for it, before its head. The asks that follow are
/// those of the halves, the request's first. The timer of its direction starts anew, and that of the other one starts
/// where no ask was out.
pub fn answer_told()
    ensures own { (c : FilterConfig) (h : List Call) (x : Answering) (p : PartAnswer) →
        IsHistory c (Stepped (Answered (Some x)) ∷ h) → IsNoCut c (Answered (Some x)) (account c h)
        → IsAnswerTo c x p (account c h)
        → known (course p.direction (account c (Stepped (Answered (Some x)) ∷ h)))
        ≡ told c.course p.direction (own_calls p.direction (override_of c p.kind x.modes) p.common)
        (known (course p.direction (account c h))) }
    ensures other { (c : FilterConfig) (h : List Call) (x : Answering) (p : PartAnswer) →
        IsHistory c (Stepped (Answered (Some x)) ∷ h) → IsNoCut c (Answered (Some x)) (account c h)
        → IsAnswerTo c x p (account c h)
        → known (course (across p.direction) (account c (Stepped (Answered (Some x)) ∷ h)))
        ≡ told c.course (across p.direction) (other_calls p.direction (override_of c p.kind x.modes))
        (known (course (across p.direction) (account c h))) }
    ensures made { (c : FilterConfig) (x : Answering) (p : PartAnswer) (a : ExchangeAccount) →
        IsNoCut c (Answered (Some x)) a → IsAnswerTo c x p a → (step c (Answered (Some x)) a).made
        ≡ (a.made ++ asks_behind Request (course Request a) (course Request (step c (Answered (Some x)) a)))
        ++ asks_behind Response (course Response a) (course Response (step c (Answered (Some x)) a)) }
    ensures judged { (c : FilterConfig) (p : PartAnswer) (a : ExchangeAccount) → part_cut c a p
        ≡ cut_for (refusal c.course p.direction (course p.direction a) p.kind p.common) }
    ensures part { (c : FilterConfig) (x : Answering) (p : PartAnswer) (a : ExchangeAccount) →
        IsNoCut c (Answered (Some x)) a → IsAnswerTo c x p a → part_cut c a p ≡ None }
    ensures accepted { (c : FilterConfig) (p : PartAnswer) (a : ExchangeAccount) → part_cut c a p ≡ None
        → refusal c.course p.direction (course p.direction a) p.kind p.common ≡ None }
    ensures settles { (c : FilterConfig) (p : PartAnswer) (n : Option ModeNumbers) (a : ExchangeAccount) →
        part_cut c a p ≡ None → is_some (override_of c p.kind n) ≡ true
        → list_any is_headers (out (course p.direction a)) ≡ true }
    ensures early { (c : FilterConfig) (h : List Call) (p : PartAnswer) (n : Option ModeNumbers) → IsHistory c h
        → is_released (account c h) ≡ false → part_cut c (account c h) p ≡ None → p.direction ≡ Request
        → is_some (override_of c p.kind n) ≡ true → (course Response (account c h)).original.head ≡ None }
    ensures timer { (c : FilterConfig) (x : Answering) (p : PartAnswer) (a : ExchangeAccount) →
        IsNoCut c (Answered (Some x)) a → IsAnswerTo c x p a
        → ((flow p.direction (step c (Answered (Some x)) a)).deadline ≡ a.now + c.timeout_ms)
        × ((flow p.direction (step c (Answered (Some x)) a)).extended ≡ false) }
    ensures other_timer { (c : FilterConfig) (x : Answering) (p : PartAnswer) (a : ExchangeAccount) →
        IsNoCut c (Answered (Some x)) a → IsAnswerTo c x p a
        → ((flow (across p.direction) (step c (Answered (Some x)) a)).deadline
        ≡ (if is_out_in a (across p.direction) then (flow (across p.direction) a).deadline else a.now + c.timeout_ms))
        × ((flow (across p.direction) (step c (Answered (Some x)) a)).extended
        ≡ (flow (across p.direction) a).extended) }
{}

/// Once the rest passes or all was given, an entry of the processor or of time, or want of memory, that is no cut tells
/// the halves nothing; before, an answer with a timeout override tells them nothing. Both courses stay, and no ask
/// follows. A timer starts where no ask is out, and the override starts it anew, once for each ask. Want of memory is
/// no cut only when all was given, and an end of the stream only then or once the rest passes. Before, an answer that
/// is no cut has a timeout override or is one to a part.
pub fn nothing_told()
    ensures idle { (c : FilterConfig) (h : List Call) (e : ViewEntry) → IsHistory c (Stepped e ∷ h) → IsOfNoSide e
        → IsNoCut c e (account c h) → (is_released (account c h) ≡ true) ⊎ (is_finished c (account c h) ≡ true)
        → (d : Direction) → course d (account c (Stepped e ∷ h)) ≡ course d (account c h) }
    ensures idle_made { (c : FilterConfig) (h : List Call) (e : ViewEntry) → IsHistory c (Stepped e ∷ h) → IsOfNoSide e
        → IsNoCut c e (account c h) → (is_released (account c h) ≡ true) ⊎ (is_finished c (account c h) ≡ true)
        → (account c (Stepped e ∷ h)).made ≡ (account c h).made }
    ensures idle_timer { (c : FilterConfig) (e : ViewEntry) (a : ExchangeAccount) → IsOfNoSide e → IsNoCut c e a
        → (is_released a ≡ true) ⊎ (is_finished c a ≡ true) → (d : Direction)
        → ((flow d (step c e a)).deadline
        ≡ (if is_out_in a d then (flow d a).deadline else (gathered e a).now + c.timeout_ms))
        × ((flow d (step c e a)).extended ≡ (flow d a).extended) }
    ensures timed { (c : FilterConfig) (h : List Call) (x : Answering) (t : Span) →
        IsHistory c (Stepped (Answered (Some x)) ∷ h) → IsNoCut c (Answered (Some x)) (account c h)
        → x.timeout ≡ Some t → is_released (account c h) ≡ false → is_finished c (account c h) ≡ false
        → (d : Direction) → course d (account c (Stepped (Answered (Some x)) ∷ h)) ≡ course d (account c h) }
    ensures timed_made { (c : FilterConfig) (h : List Call) (x : Answering) (t : Span) →
        IsHistory c (Stepped (Answered (Some x)) ∷ h) → IsNoCut c (Answered (Some x)) (account c h)
        → x.timeout ≡ Some t → is_released (account c h) ≡ false → is_finished c (account c h) ≡ false
        → (account c (Stepped (Answered (Some x)) ∷ h)).made ≡ (account c h).made }
    ensures timed_timer { (c : FilterConfig) (x : Answering) (t : Span) (a : ExchangeAccount) →
        IsNoCut c (Answered (Some x)) a → x.timeout ≡ Some t → is_released a ≡ false → is_finished c a ≡ false
        → (d : Direction) → ((flow d (step c (Answered (Some x)) a)).deadline
        ≡ (if is_out_in a d then (flow d (extended_by c t a)).deadline else a.now + c.timeout_ms))
        × ((flow d (step c (Answered (Some x)) a)).extended ≡ (flow d (extended_by c t a)).extended) }
    ensures starved { (c : FilterConfig) (a : ExchangeAccount) → IsNoCut c Starved a → is_finished c a ≡ true }
    ensures ends { (c : FilterConfig) (e : ViewEntry) (a : ExchangeAccount) → EndsStream e → IsNoCut c e a
        → (is_released a ≡ true) ⊎ (is_finished c a ≡ true) }
    ensures taken { (c : FilterConfig) (x : Option Answering) (a : ExchangeAccount) → IsNoCut c (Answered x) a
        → is_released a ≡ false → is_finished c a ≡ false → IsTaken c a x }
{}

/// Each call that tells a half what its side brings may be told where it comes: the head once, behind it body bytes
/// for which there is room, of a message that has a body and isn't whole. This holds where the side brings, behind the
/// head, no more body than there was room for, and with the head at most a piece. Along a history it never brings more,
/// as the body of a message grows by no more bytes than come. Of an entry that is the cut it holds until the body is
/// past its limit, where a half that is told in turn stops.
pub fn news_fit()
    ensures fit { (c : CourseConfig) (d : Direction) (w : Course) (now : Original) → Comes c d w now →
        (is_some w.original.head ≡ true → length now.body - length w.original.body ≤ body_room c d w)
        → AllFit c d (news c d (known w) now) (known w) }
    ensures along { (c : FilterConfig) (h : List Call) (e : ViewEntry) → IsHistory c (Stepped e ∷ h) → IsOfSides e
        → IsNoCut c e (account c h) → c.course.piece ≤ c.course.mark → (d : Direction)
        → AllFit c.course d (news c.course d (known (course d (account c h)))
        (course d (gathered e (account c h))).original) (known (course d (account c h))) }
    ensures until_over { (c : CourseConfig) (d : Direction) (w : Course) (now : Original) → Arrives c d w now →
        (is_some w.original.head ≡ true → length now.body - length w.original.body ≤ body_room c d w)
        → FitUntilOver c d (news c d (known w) now) (known w) }
    ensures along_until { (c : FilterConfig) (h : List Call) (e : ViewEntry) → IsHistory c (Stepped e ∷ h)
        → IsOfSides e → is_live (account c h).fate ≡ true → c.course.piece ≤ c.course.mark → (d : Direction)
        → FitUntilOver c.course d (news c.course d (known (course d (account c h)))
        (course d (gathered e (account c h))).original) (known (course d (account c h))) }
    ensures short { (c : FilterConfig) (h : List Call) (e : ViewEntry) → IsHistory c (Stepped e ∷ h) → IsOfSides e
        → (d : Direction) → IsShort c (course d (account c h)) (course d (gathered e (account c h))) }
    ensures grows { (d : Direction) (to_head : Bool) (bytes more : List ℕ) (ended now_ended : Bool) →
        length (reads d to_head (bytes ++ more) now_ended).body
        ≤ length (reads d to_head bytes ended).body + length more }
{}

/// A cut that ends an exchange, or the client's leaving, tells the halves nothing that counts: the asks that were made
/// stay, and each message was given whole afterwards only where it was before. After an end neither changes: of all
/// entries of the two sides, of the processor and of time only an ask that was sent counts.
pub fn untold()
    ensures made { (c : FilterConfig) (e : ViewEntry) (a : ExchangeAccount) → is_live a.fate ≡ true
        → is_live (step c e a).fate ≡ false → (step c e a).made ≡ a.made }
    ensures given { (c : FilterConfig) (h : List Call) (e : ViewEntry) → IsHistory c (Stepped e ∷ h)
        → is_live (account c h).fate ≡ true → is_live (account c (Stepped e ∷ h)).fate ≡ false → (d : Direction)
        → is_given c (account c (Stepped e ∷ h)) d ≡ is_given c (account c h) d }
    ensures after_given { (c : FilterConfig) (h : List Call) (e : ViewEntry) → IsHistory c (Stepped e ∷ h)
        → is_live (account c h).fate ≡ false → (d : Direction)
        → is_given c (account c (Stepped e ∷ h)) d ≡ is_given c (account c h) d }
    ensures after_asks { (c : FilterConfig) (e : ViewEntry) (a : ExchangeAccount) → is_live a.fate ≡ false
        → (d : Direction) → ((course d (step c e a)).asks ≡ (course d a).asks) × ((step c e a).made ≡ a.made) }
    ensures after_same { (c : FilterConfig) (e : ViewEntry) (a : ExchangeAccount) → is_live a.fate ≡ false
        → still_counts e ≡ false → step c e a ≡ a }
{}

/// What an entry does to a live exchange beside the courses and the asks: what it brings stands, whether it is a cut or
/// not. The fate changes only by a cut or the client's leaving, and the ending as the account then says. An entry that
/// is no cut and brings no answer starts the timer of a direction in which no ask is out; a cut leaves the timers.
pub fn rest_stays()
    ensures same { (c : FilterConfig) (e : ViewEntry) (a : ExchangeAccount) → is_live a.fate ≡ true
        → SameRest (gathered e a) (step c e a) }
    ensures fate { (c : FilterConfig) (e : ViewEntry) (a : ExchangeAccount) → IsNoCut c e a
        → (step c e a).fate ≡ a.fate }
    ensures cut_fate { (c : FilterConfig) (e : ViewEntry) (a : ExchangeAccount) (k : Cut) → is_live a.fate ≡ true
        → is_departure e (gathered e a) ≡ false → cut c e (gathered e a) ≡ Some k
        → (step c e a).fate ≡ fate_under c k (settled c (gathered e a)) }
    ensures left { (c : FilterConfig) (e : ViewEntry) (a : ExchangeAccount) → is_live a.fate ≡ true
        → is_departure e (gathered e a) ≡ true → (step c e a).fate ≡ Left }
    ensures ending { (c : FilterConfig) (e : ViewEntry) (a : ExchangeAccount) → is_live a.fate ≡ true
        → (step c e a).ending ≡ ending_of c (record (step c e a) { ending = a.ending }) }
    ensures timer { (c : FilterConfig) (e : ViewEntry) (a : ExchangeAccount) → BringsNoAnswer e → IsNoCut c e a
        → (d : Direction) → ((flow d (step c e a)).deadline
        ≡ (if is_out_in a d then (flow d a).deadline else (gathered e a).now + c.timeout_ms))
        × ((flow d (step c e a)).extended ≡ (flow d a).extended) }
    ensures cut_timer { (c : FilterConfig) (e : ViewEntry) (a : ExchangeAccount) (k : Cut) → is_live a.fate ≡ true
        → is_departure e (gathered e a) ≡ false → cut c e (gathered e a) ≡ Some k → (d : Direction)
        → ((flow d (step c e a)).deadline ≡ (flow d a).deadline)
        × ((flow d (step c e a)).extended ≡ (flow d a).extended) }
{}

/// Whether a cut ends an exchange by a reply hangs on the response's head: also on one that the entry itself brings,
/// where it can go at once. A half that is told the head alone has one then where the account does; of an entry that
/// brings no head it is told nothing.
pub fn cut_head()
    ensures chosen { (c : FilterConfig) (h : List Call) (e : ViewEntry) → IsHistory c (Stepped e ∷ h)
        → is_live (account c h).fate ≡ true → (d : Direction) →
        is_some (course d (settled c (gathered e (account c h)))).head
        ≡ is_some (told c.course d (head_news (course d (account c h)).original
        (course d (gathered e (account c h))).original) (known (course d (account c h)))).head }
    ensures to_head { (c : FilterConfig) (a : ExchangeAccount) → is_to_head (settled c a) ≡ is_to_head a }
{}

/// What cut the bytes or the end of a side are: none once both messages were given before; else that its body is past
/// its limit, or that it is faulty. For reading on gives nothing whole that is a cut, and leaves what was given whole.
pub fn side_cuts()
    ensures { (c : FilterConfig) (h : List Call) (s : Side) (e : ViewEntry) → IsHistory c (Stepped e ∷ h)
        → IsReadOf s e → is_live (account c h).fate ≡ true → cut c e (gathered e (account c h))
        ≡ read_cut (is_finished c (account c h)) (is_over c.course (course (from s) (gathered e (account c h))))
        (from s) (fault_cut (gathered e (account c h)) (from s)) }
{}

/// The asks of a direction, among those of both in the order in which they were made, are those of its course, and so
/// many of them were sent as its course says.
pub fn asked_in_turn()
    ensures made { (c : FilterConfig) (h : List Call) (d : Direction) →
        asks_in d (account c h).made ≡ map (ask_of d) (course d (account c h)).asks }
    ensures sent { (c : FilterConfig) (h : List Call) (d : Direction) →
        length (asks_in d (take (account c h).sent (account c h).made)) ≡ (course d (account c h)).sent }
    ensures bound { (c : FilterConfig) (h : List Call) → (account c h).sent ≤ length (account c h).made }
{}
