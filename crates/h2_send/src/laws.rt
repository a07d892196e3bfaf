//! Laws of the definitions, which hold for every caller.
ghost use Rattle.std.specs.Prelude.{◌≡◌, ◌≢◌, ◌⊎◌, ◌<◌, ◌≤◌, ◌*◌, length, Bool, IsTrue, false, nat_eq, [], ◌∷◌, ◌++◌, List, map, ℕ, ℤ};
ghost use Rattle.std.specs.List.{AllByRecursion, filter, flat_map, list_any};
ghost use Rattle.h2_windows.specs.declared.stream.Stream.{Stream};
ghost use Rattle.h2_windows.specs.Pacing.{Passing, ArePaced, is_data, is_data_on};
ghost use Rattle.h2_windows.specs.Fitting.{HaveFitHeads};
ghost use Rattle.h2_windows.specs.Shares.{window_of};
ghost use Rattle.h2_windows.specs.Windows.{room};
ghost use Rattle.h2_windows.specs.Sending.{after_sending};
ghost use Rattle.h2_windows.specs.Streams.{AreRising, is_stream};
ghost use Rattle.h2_events.specs.Events.{resets};
ghost use Rattle.h2_events.specs.Items.{can_say, heard, is_last, said_by, said_on, written};
ghost use Rattle.h2_events.specs.Ports.{FitsMessage};
ghost use Rattle.h2_events.specs.declared.said.Piece.{Piece as Given};
ghost use Rattle.h2_events.specs.declared.port.Took.{Took as Answer};
ghost use Rattle.h2_events.specs.Items as item;
ghost use Rattle.environment.specs.Output.{Output, Wrote, FailedWithin};
ghost use Rattle.h2_windows.specs.Control.{greeting};
ghost use Rattle.h2_windows.specs.Written.{octets_of};
ghost use Rattle.h2_events.specs.declared.said.Said.{Said as Spoken};
ghost use Rattle.h2_events.specs.declared.port.Took.TheVariants as Took;
ghost use Rattle.h2_events.specs.declared.port.Ready.TheVariants as Ready;
ghost use Rattle.h2_send.specs.Port.{GoesOn, Offers, Progress, ready_in};
ghost use Rattle.h2_send.specs.declared.condition.Condition.TheVariants as Condition;
ghost use Rattle.h2_send.specs.Inputs.{Input, IsSoundInput, events_of, item_of};
ghost use Rattle.h2_windows.specs.Bounds.{largest_pending};
ghost use Rattle.h2_windows.specs.Holding.{waiting};
ghost use Rattle.h2_send.specs.Accepting.{AreAccepted, HoldWithin, IsOpenedOnce};
ghost use Rattle.h2_send.specs.Farewells.{farewell};
ghost use Rattle.h2_send.specs.Lines.{Line, first_line};
ghost use Rattle.h2_send.specs.Messages.{octets_said, data_on, waiting_on};
ghost use Rattle.h2_send.specs.Offers.{ready_on};
ghost use Rattle.h2_send.specs.StreamFrames.{IsAnswer, frames_on};
ghost use Rattle.h2_send.specs.Acting.{handled, replies, taken_in};
ghost use Rattle.h2_send.specs.OrderWindows.{KeepsWithin, first_peer_window, window_in};
ghost use Rattle.h2_send.specs.Orders.{line_after, order_of};
ghost use Rattle.h2_send.specs.Wires.{is_control};

/// Behind each input octets wait only where their stream's or the connection's window is 0 or below.
pub fn paced_after_each_input()
    ensures { (input : Input) (line : Line)
        → ArePaced (handled input line).line.initial (handled input line).line.window
        (handled input line).line.streams }
{}

/// What is written for an input passes no window: neither the connection's, as the input leaves it,
pub fn windows_kept()
    ensures connection { (input : Input) (line : Line)
        → Passing is_data (taken_in input line).window (handled input line).line.window
        (handled input line).frames }
    // nor that of a stream, where no other has its number.
    ensures own { (input : Input) (line : Line) (before : List Stream) (s : Stream)
        (after : List Stream)
        → (taken_in input line).streams ≡ before ++ s ∷ after
        → AllByRecursion (λ t. nat_eq t.id s.id ≡ false) before
        → AllByRecursion (λ t. nat_eq t.id s.id ≡ false) after
        → (n : ℕ) × Passing (is_data_on s.id) (window_of (taken_in input line).initial s)
        (window_of (taken_in input line).initial (after_sending n s)) (handled input line).frames }
    // On a stream that was ended or reset, or never opened, no DATA is written.
    ensures others { (input : Input) (line : Line) (id : ℕ) (own : ℤ)
        → AllByRecursion (λ t. nat_eq t.id id ≡ false) (taken_in input line).streams
        → Passing (is_data_on id) own own (handled input line).frames }
{}

/// By what was read and written alone (specs/OrderWindows.antt): at no place of the order does the DATA that is written pass the
/// connection's window, which is that of number 0,
pub fn windows_of_orders()
    ensures connection { (inputs : List Input)
        → KeepsWithin 0 first_peer_window (order_of inputs) }
    // nor that of a stream, which a client opens once;
    ensures streams { (stream : ℕ) (inputs : List Input) → 0 < stream
        → IsOpenedOnce stream (events_of inputs)
        → KeepsWithin stream first_peer_window (order_of inputs) }
    // and behind it octets of the stream wait only where the one window or the other is 0 or below.
    ensures paced { (stream : ℕ) (inputs : List Input) → 0 < stream
        → IsOpenedOnce stream (events_of inputs)
        → waiting_on stream (line_after first_line inputs).streams ≢ []
        → (room (window_in 0 (order_of inputs)) ≡ 0)
        ⊎ (room (window_in stream (order_of inputs)) ≡ 0) }
{}

/// The order is the inputs, each with what is written for it behind it. The greeting, which stands before it, and a GOAWAY
/// behind it are none of its frames.
pub fn order_of_inputs()
    ensures none { order_of [] ≡ [] }
    ensures grows { (inputs : List Input) (input : Input)
        → order_of (inputs ++ input ∷ []) ≡ order_of inputs
        ++ item_of input ∷ map item.Wrote (handled input (line_after first_line inputs)).frames }
    ensures heard { (inputs : List Input) → heard (order_of inputs) ≡ events_of inputs }
    ensures said { (stream : ℕ) (inputs : List Input)
        → said_on stream (order_of inputs) ≡ said_on stream (map item_of inputs) }
    // SETTINGS, PING, DATA and stream errors are answered, each once, in the order in which they were read, and nothing
    // else is written for inputs but HEADERS and DATA.
    ensures answered { (inputs : List Input)
        → filter is_control (written (order_of inputs)) ≡ flat_map replies (events_of inputs) }
{}

/// What holds of every line that inputs make of the first one, without any condition: its streams stand by rising number,
pub fn lines_of_inputs()
    ensures rising { (inputs : List Input) → AreRising (line_after first_line inputs).streams }
    // octets wait only where their stream's or the connection's window is 0 or below,
    ensures paced { (inputs : List Input)
        → ArePaced (line_after first_line inputs).initial (line_after first_line inputs).window
        (line_after first_line inputs).streams }
    // and what is written for the next input passes no stream's window, wherever the stream stands.
    ensures within { (inputs : List Input) (input : Input) (before : List Stream) (s : Stream)
        (after : List Stream)
        → (taken_in input (line_after first_line inputs)).streams ≡ before ++ s ∷ after
        → (n : ℕ) × Passing (is_data_on s.id)
        (window_of (taken_in input (line_after first_line inputs)).initial s)
        (window_of (taken_in input (line_after first_line inputs)).initial (after_sending n s))
        (handled input (line_after first_line inputs)).frames }
{}

/// What is written for inputs that can be fits in its frames: each head states its payload's length, of 16,384 octets at
/// most, and a stream below 2^31. A receiver's events are such inputs.
pub fn frames_of_inputs_fit()
    ensures { (inputs : List Input) → AllByRecursion IsSoundInput inputs
        → HaveFitHeads (written (order_of inputs)) }
{}

/// A stream is on the line exactly where something may be said on it: it was opened, and neither reset nor ended since.
pub fn streams_that_something_can_be_said_on()
    ensures { (stream : ℕ) (inputs : List Input)
        → can_say stream (order_of inputs)
        ≡ list_any (is_stream stream) (line_after first_line inputs).streams }
{}

/// What goes out of the messages of a stream. Where it isn't reset, its DATA and then what waits are the octets of its messages,
/// in the order in which they were said, each with the five that gRPC puts before it;
pub fn data_of_streams()
    ensures all { (stream : ℕ) (inputs : List Input) → AreAccepted first_line inputs
        → list_any (resets stream) (events_of inputs) ≡ false
        → octets_said (said_on stream (order_of inputs))
        ≡ data_on stream (written (order_of inputs))
        ++ waiting_on stream (line_after first_line inputs).streams }
    // nothing waits on a stream that isn't busy;
    ensures none_waits { (stream : ℕ) (streams : List Stream)
        → ready_on stream streams ≢ Ready.Busy → waiting_on stream streams ≡ [] }
    // and also of a stream that is reset, which a client opens once, the DATA are a front of them.
    ensures front { (stream : ℕ) (inputs : List Input) → AreAccepted first_line inputs
        → IsOpenedOnce stream (events_of inputs)
        → (end : List ℕ) × (octets_said (said_on stream (order_of inputs))
        ≡ data_on stream (written (order_of inputs)) ++ end) }
{}

/// HEADERS and DATA that are written on a stream, which a client opens once, answer what was said on it: HEADERS before a first
/// message, DATA, and then what ends the stream, where that was said.
pub fn frames_of_streams()
    ensures { (stream : ℕ) (inputs : List Input) → AreAccepted first_line inputs
        → IsOpenedOnce stream (events_of inputs)
        → IsAnswer stream (said_on stream (order_of inputs))
        (frames_on stream (written (order_of inputs))) }
{}

/// The line behind one input more.
pub fn lines_go_on()
    ensures { (inputs : List Input) (input : Input)
        → line_after first_line (inputs ++ input ∷ [])
        ≡ (handled input (line_after first_line inputs)).line }
{}

/// What the answers of an offer tell, whoever else has a port: the stream is gone behind Gone, octets wait on it behind Busy,
pub fn offers_and_their_answers()
    ensures gone { (is_alone : Bool) (stream : ℕ) (said : Spoken) (old new : Progress)
        → Offers is_alone Took.Gone stream said old new → ready_in stream new ≡ Ready.Gone }
    ensures busy { (is_alone : Bool) (stream : ℕ) (said : Spoken) (old new : Progress)
        → Offers is_alone Took.Busy stream said old new → ready_in stream new ≡ Ready.Busy }
    // behind what comes last on it nothing can be said there until it is opened again,
    ensures ended { (is_alone : Bool) (stream : ℕ) (said : Spoken) (old new : Progress)
        → Offers is_alone Took.Taken stream said old new → IsTrue (is_last said)
        → ready_in stream new ≡ Ready.Gone }
    // and nothing is taken but on a stream that was free.
    ensures free { (is_alone : Bool) (stream : ℕ) (said : Spoken) (old new : Progress)
        → Offers is_alone Took.Taken stream said old new → IsTrue is_alone
        → ready_in stream old ≡ Ready.Free }
    // A write fault comes only where a write failed in this call, and then all streams are gone, as for want of memory.
    ensures write_fault { (is_alone : Bool) (stream : ℕ) (said : Spoken) (old new : Progress)
        → Offers is_alone Took.WriteFault stream said old new
        → old.output.faults < new.output.faults }
    ensures closed { (is_alone : Bool) (stream : ℕ) (said : Spoken) (old new : Progress)
        → Offers is_alone Took.WriteFault stream said old new
        → (other : ℕ) → ready_in other new ≡ Ready.Gone }
    ensures starved { (is_alone : Bool) (stream : ℕ) (said : Spoken) (old new : Progress)
        → Offers is_alone Took.NoMemory stream said old new
        → (other : ℕ) → ready_in other new ≡ Ready.Gone }
{}

/// How a connection stays that others have ports to. Its inputs are accepted, with what others give and with what is offered;
pub fn ports_go_on()
    ensures accepted { (old new : Progress) → AreAccepted first_line old.inputs
        → GoesOn old new → AreAccepted first_line new.inputs }
    ensures offered { (is_alone : Bool) (answer : Answer) (stream : ℕ) (given : Given)
        (old new : Progress) → FitsMessage given → AreAccepted first_line old.inputs
        → Offers is_alone answer stream (said_by given) old new
        → AreAccepted first_line new.inputs }
    // and where it was open, a write fault that closes it raises the count of faults, whoever met it.
    ensures write_fault { (old new : Progress) → GoesOn old new
        → old.condition ≡ Condition.Open → new.condition ≡ Condition.WriteFault
        → old.output.faults < new.output.faults }
{}

/// What is kept back: of each stream one message at most, and so in all.
pub fn octets_kept_back()
    ensures streams { (inputs : List Input) → AreAccepted first_line inputs
        → HoldWithin (line_after first_line inputs).streams }
    ensures all { (streams : List Stream) → HoldWithin streams
        → waiting streams ≤ largest_pending * length streams }
{}

/// What has gone out behind one input more, or behind the end of the connection, and what goes out of it where a write fails: the
/// greeting and the frames of the order, and a GOAWAY, or a proper front of their octets.
pub fn outputs_go_on()
    ensures wrote { (inputs : List Input) (input : Input) (start old new : Output)
        → Wrote (octets_of (greeting ∷ written (order_of inputs))) start old
        → Wrote (octets_of (handled input (line_after first_line inputs)).frames) old new
        → Wrote (octets_of (greeting ∷ written (order_of (inputs ++ input ∷ [])))) start new }
    ensures failed { (inputs : List Input) (input : Input) (start old new : Output)
        → Wrote (octets_of (greeting ∷ written (order_of inputs))) start old
        → FailedWithin (octets_of (handled input (line_after first_line inputs)).frames) old new
        → FailedWithin (octets_of (greeting ∷ written (order_of (inputs ++ input ∷ []))))
        start new }
    ensures finished { (inputs : List Input) (code : ℕ) (start old new : Output)
        → Wrote (octets_of (greeting ∷ written (order_of inputs))) start old
        → Wrote (octets_of (farewell code (line_after first_line inputs))) old new
        → Wrote (octets_of (greeting ∷ written (order_of inputs)
        ++ farewell code (line_after first_line inputs))) start new }
    ensures unfinished { (inputs : List Input) (code : ℕ) (start old new : Output)
        → Wrote (octets_of (greeting ∷ written (order_of inputs))) start old
        → FailedWithin (octets_of (farewell code (line_after first_line inputs))) old new
        → FailedWithin (octets_of (greeting ∷ written (order_of inputs)
        ++ farewell code (line_after first_line inputs))) start new }
{}
