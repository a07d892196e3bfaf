//! Laws of the definitions, which hold for every caller.
ghost use Rattle.std.specs.Prelude.{All, ◌≡◌, ◌≤◌, ℕ, List, ◌++◌, length, Option, Some, None};
ghost use Rattle.std.specs.List.{AllByRecursion, flat_map};
ghost use Rattle.base_kinds.specs.declared.refusal.Refusal.{Refusal};
ghost use Rattle.base_kinds.specs.Refusals.{text_of};
ghost use Rattle.hpack_block.specs.Written.{IsShort};
ghost use Rattle.grpc_core.specs.declared.message.SplitFault.{SplitFault};
ghost use Rattle.grpc_core.specs.declared.method.Method.{Method};
ghost use Rattle.grpc_core.specs.Messages.{Splits, AreMessages, AreOctets, cut, framed, standing, end_at, largest_message};
ghost use Rattle.grpc_core.specs.Heads.{path_of, method_at};
ghost use Rattle.grpc_core.specs.Replies.{opening_headers, trailers, percent_encoded};

/// All octets are messages and then a rest, which is the beginning of one or stands with a fault: those of `cut`.
pub fn computed()
    ensures every { (octets : List ℕ) → AreOctets octets
        → let c = cut octets in Splits octets c.messages c.rest c.fault }
    ensures only { (octets : List ℕ) (messages : List (List ℕ)) (rest : List ℕ)
        (fault : Option SplitFault) → Splits octets messages rest fault
        → cut octets ≡ record { messages = messages; rest = rest; fault = fault } }
{}

/// Octets are one list of messages, one rest and one fault or none.
pub fn one_list()
    ensures one { (octets : List ℕ) (ms ns : List (List ℕ)) (r s : List ℕ) (e f : Option SplitFault)
        → Splits octets ms r e → Splits octets ns s f → (ms ≡ ns) × (r ≡ s) × (e ≡ f) }
    // Messages that stand in front are the first ones of the list.
    ensures first { (octets : List ℕ) (ms ns : List (List ℕ)) (r s : List ℕ)
        (fault : Option SplitFault) → AreMessages octets ms r → Splits octets ns s fault
        → (others : List (List ℕ)) × (ns ≡ ms ++ others) }
{}

/// The messages of a ++ b are those of a, and then those of its rest with b after it; after a fault there are none.
pub fn joined_at_a_cut()
    ensures goes_on { (a b : List ℕ) (ms ns : List (List ℕ)) (r s : List ℕ)
        (fault : Option SplitFault) → Splits a ms r None → Splits (r ++ b) ns s fault
        → Splits (a ++ b) (ms ++ ns) s fault }
    ensures stays { (a b : List ℕ) (ms : List (List ℕ)) (r : List ℕ) (fault : SplitFault)
        → Splits a ms r (Some fault) → Splits (a ++ b) ms (r ++ b) (Some fault) }
{}

/// Messages that were written one after the other, and the beginning of another, are those messages and that rest.
pub fn written_run()
    ensures { (messages : List (List ℕ)) (rest : List ℕ) (fault : Option SplitFault)
        → AllByRecursion (λ message. length message ≤ largest_message) messages
        → standing rest ≡ end_at fault
        → Splits (flat_map framed messages ++ rest) messages rest fault }
{}

/// What is not whole has at most 4,194,308 octets: one less than the largest message and the five before it.
pub fn least_missing()
    ensures { (rest : List ℕ) → standing rest ≡ end_at None → length rest ≤ 4194308 }
{}

/// Each method is found at its path.
pub fn methods_at_their_paths()
    ensures { (method : Method) → method_at (path_of method) ≡ Some method }
{}

/// No octet of a refusal's text has to be percent-encoded.
pub fn plain_texts()
    ensures { (refusal : Refusal) → percent_encoded (text_of refusal) ≡ text_of refusal }
{}

/// The headers of replies can be written as header blocks.
pub fn short_headers()
    ensures opening { All IsShort opening_headers }
    ensures trailers { (refusal : Option Refusal) → All IsShort (trailers refusal) }
    ensures together { (refusal : Option Refusal)
        → All IsShort (opening_headers ++ trailers refusal) }
{}
