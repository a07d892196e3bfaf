//! Laws of the definitions, which hold for every caller.
ghost use Rattle.std.specs.Prelude.{◌≡◌, ℕ, ◌+◌, ◌<◌, ◌≤◌, List, [], ◌∷◌, ◌++◌, length, drop, slice_range};
ghost use Rattle.std.specs.List.{AllByRecursion, flat_map};
ghost use Rattle.h2_frame.specs.declared.frame.Head.{Head};
ghost use Rattle.h2_frame.specs.Frames.{Frame, Frames, FramesTo, AreOctets, IsEnd, IsTooLong, Fits, Spells, StandsFirst, IsPart, frame_of, spelling, head_spelling, spelling_with, stated_length};
ghost use Rattle.h2_frame.specs.ErrorCodes.{no_error, protocol_error, internal_error, flow_control_error, settings_timeout, stream_closed, frame_size_error, refused_stream, cancel, compression_error, connect_error, enhance_your_calm, inadequate_security, http_1_1_required};
ghost use Rattle.h2_frame.specs.Kinds.{data_kind, headers_kind, priority_kind, rst_stream_kind, settings_kind, push_promise_kind, ping_kind, goaway_kind, window_update_kind, continuation_kind, end_stream_flag, ack_flag, end_headers_flag, padded_flag, priority_flag};
ghost use Rattle.h2_frame.specs.declared.codes.TheConstants.{NO_ERROR, PROTOCOL_ERROR, INTERNAL_ERROR, FLOW_CONTROL_ERROR, SETTINGS_TIMEOUT, STREAM_CLOSED, FRAME_SIZE_ERROR, REFUSED_STREAM, CANCEL, COMPRESSION_ERROR, CONNECT_ERROR, ENHANCE_YOUR_CALM, INADEQUATE_SECURITY, HTTP_1_1_REQUIRED};
ghost use Rattle.h2_frame.specs.declared.kinds.TheConstants.{DATA, HEADERS, PRIORITY, RST_STREAM, SETTINGS, PUSH_PROMISE, PING, GOAWAY, WINDOW_UPDATE, CONTINUATION, END_STREAM, ACK, END_HEADERS, PADDED, PRIORITY_FLAG};

/// No frame's octets begin another frame's octets: where two runs of octets that begin with frames are equal, the
/// frames are, and what follows them.
pub fn none_begins_another()
    ensures alike { (x y a b : List ℕ) (f g : Frame) → Spells x f → Spells y g → x ++ a ≡ y ++ b
        → (x ≡ y) × (f ≡ g) × (a ≡ b) }
    ensures none { (x more : List ℕ) (f g : Frame) → Spells x f → Spells (x ++ more) g → more ≡ [] }
{}

/// No frame that begins with the octets has fewer octets of payload than they state.
pub fn least_length()
    ensures { (octets more : List ℕ) (f : Frame) → Spells (octets ++ more) f
        → stated_length octets ≤ f.head.length }
{}

/// What is written is what is read there, whatever follows.
pub fn reads_back()
    ensures { (max : ℕ) (f : Frame) (after : List ℕ) → Fits f → f.head.length ≤ max
        → StandsFirst max (spelling f ++ after) f.head (9 + f.head.length)
        × (slice_range (spelling f ++ after) 9 (9 + f.head.length) ≡ f.payload)
        × (drop (9 + f.head.length) (spelling f ++ after) ≡ after) }
{}

/// The nine octets of the head, and then the payload, are a frame.
pub fn head_then_payload()
    ensures { (head : Head) (payload : List ℕ)
        → spelling (frame_of head payload) ≡ head_spelling head ++ payload }
{}

/// All octets are frames up to an end: a proper prefix of a frame, or one that is too long.
pub fn every_run_ends()
    ensures { (max : ℕ) (octets : List ℕ) → AreOctets octets
        → (fs : List Frame) × (rest : List ℕ) × FramesTo max octets fs rest }
{}

/// Octets are one list of frames and one rest.
pub fn one_list()
    ensures to_an_end { (max : ℕ) (octets : List ℕ) (fs gs : List Frame) (r s : List ℕ)
        → FramesTo max octets fs r → FramesTo max octets gs s → (fs ≡ gs) × (r ≡ s) }
    ensures to_a_part { (max : ℕ) (octets : List ℕ) (fs gs : List Frame) (r s : List ℕ)
        → Frames max octets fs r → Frames max octets gs s → (fs ≡ gs) × (r ≡ s) }
    // A rest that is a prefix of a frame is an end.
    ensures is_end { (max : ℕ) (octets : List ℕ) (fs : List Frame) (rest : List ℕ)
        → Frames max octets fs rest → FramesTo max octets fs rest }
{}

/// The frame that stands first, and those of the octets after it, are those of the octets.
pub fn first_then_rest()
    ensures none { (max : ℕ) (octets : List ℕ) → IsPart max octets → Frames max octets [] octets }
    ensures too_long { (max : ℕ) (octets : List ℕ) → IsTooLong max octets
        → FramesTo max octets [] octets }
    ensures one { (max : ℕ) (octets : List ℕ) (head : Head) (used : ℕ) (fs : List Frame)
        (rest : List ℕ)
        → StandsFirst max octets head used → FramesTo max (drop used octets) fs rest
        → FramesTo max octets (frame_of head (slice_range octets 9 used) ∷ fs) rest }
    ensures one_to_a_part { (max : ℕ) (octets : List ℕ) (head : Head) (used : ℕ) (fs : List Frame)
        (rest : List ℕ) → StandsFirst max octets head used → Frames max (drop used octets) fs rest
        → Frames max octets (frame_of head (slice_range octets 9 used) ∷ fs) rest }
{}

/// And what is answered of octets says how their list of frames begins.
pub fn first_of_the_list()
    ensures none { (max : ℕ) (octets : List ℕ) (fs : List Frame) (rest : List ℕ) → IsPart max octets
        → FramesTo max octets fs rest → (fs ≡ []) × (rest ≡ octets) }
    ensures one { (max : ℕ) (octets : List ℕ) (head : Head) (used : ℕ) (fs : List Frame)
        (rest : List ℕ)
        → StandsFirst max octets head used → FramesTo max octets fs rest
        → (gs : List Frame) × (fs ≡ frame_of head (slice_range octets 9 used) ∷ gs)
        × FramesTo max (drop used octets) gs rest }
    ensures too_long { (max : ℕ) (octets : List ℕ) (fs : List Frame) (rest : List ℕ)
        → IsTooLong max octets → FramesTo max octets fs rest → (fs ≡ []) × (rest ≡ octets) }
    // A frame that is too long is in no list that ends with a prefix of a frame.
    ensures no_part { (max : ℕ) (octets : List ℕ) (fs : List Frame) (rest : List ℕ)
        → IsTooLong max octets → Frames max octets fs rest → ⊥ }
{}

/// The frames of a ++ b are those of a, and then those of its rest with b after it.
pub fn joined_at_a_cut()
    ensures to_an_end { (max : ℕ) (a b : List ℕ) (fs gs : List Frame) (r s : List ℕ)
        → FramesTo max a fs r → FramesTo max (r ++ b) gs s → FramesTo max (a ++ b) (fs ++ gs) s }
    ensures to_a_part { (max : ℕ) (a b : List ℕ) (fs gs : List Frame) (r s : List ℕ)
        → Frames max a fs r → Frames max (r ++ b) gs s → Frames max (a ++ b) (fs ++ gs) s }
{}

/// Wherever octets are cut, each piece is frames up to an end, and the frames are the same.
pub fn cut_anywhere()
    ensures to_an_end { (max : ℕ) (a b : List ℕ) (hs : List Frame) (s : List ℕ) → AreOctets (a ++ b)
        → FramesTo max (a ++ b) hs s
        → (fs gs : List Frame) × (r : List ℕ) × FramesTo max a fs r × FramesTo max (r ++ b) gs s
        × (hs ≡ fs ++ gs) }
    ensures to_a_part { (max : ℕ) (a b : List ℕ) (hs : List Frame) (s : List ℕ)
        → Frames max (a ++ b) hs s
        → (fs gs : List Frame) × (r : List ℕ) × Frames max a fs r × Frames max (r ++ b) gs s
        × (hs ≡ fs ++ gs) }
{}

/// Frames that were written one after the other, and the front of another, are those frames and that rest.
pub fn written_run()
    ensures to_an_end { (max : ℕ) (fs : List Frame) (rest : List ℕ) → AllByRecursion Fits fs
        → AllByRecursion (λ f. f.head.length ≤ max) fs → IsEnd max rest
        → FramesTo max (flat_map spelling fs ++ rest) fs rest }
    ensures to_a_part { (max : ℕ) (fs : List Frame) (rest : List ℕ) → AllByRecursion Fits fs
        → AllByRecursion (λ f. f.head.length ≤ max) fs → IsPart max rest
        → Frames max (flat_map spelling fs ++ rest) fs rest }
{}

/// The constants are the numbers of RFC 9113 sections 6 and 7.
pub fn numbers_of_the_standard()
    ensures data_kind { DATA ≡ data_kind }
    ensures headers_kind { HEADERS ≡ headers_kind }
    ensures priority_kind { PRIORITY ≡ priority_kind }
    ensures rst_stream_kind { RST_STREAM ≡ rst_stream_kind }
    ensures settings_kind { SETTINGS ≡ settings_kind }
    ensures push_promise_kind { PUSH_PROMISE ≡ push_promise_kind }
    ensures ping_kind { PING ≡ ping_kind }
    ensures goaway_kind { GOAWAY ≡ goaway_kind }
    ensures window_update_kind { WINDOW_UPDATE ≡ window_update_kind }
    ensures continuation_kind { CONTINUATION ≡ continuation_kind }
    ensures end_stream_flag { END_STREAM ≡ end_stream_flag }
    ensures ack_flag { ACK ≡ ack_flag }
    ensures end_headers_flag { END_HEADERS ≡ end_headers_flag }
    ensures padded_flag { PADDED ≡ padded_flag }
    ensures priority_flag { PRIORITY_FLAG ≡ priority_flag }
    ensures no_error { NO_ERROR ≡ no_error }
    ensures protocol_error { PROTOCOL_ERROR ≡ protocol_error }
    ensures internal_error { INTERNAL_ERROR ≡ internal_error }
    ensures flow_control_error { FLOW_CONTROL_ERROR ≡ flow_control_error }
    ensures settings_timeout { SETTINGS_TIMEOUT ≡ settings_timeout }
    ensures stream_closed { STREAM_CLOSED ≡ stream_closed }
    ensures frame_size_error { FRAME_SIZE_ERROR ≡ frame_size_error }
    ensures refused_stream { REFUSED_STREAM ≡ refused_stream }
    ensures cancel { CANCEL ≡ cancel }
    ensures compression_error { COMPRESSION_ERROR ≡ compression_error }
    ensures connect_error { CONNECT_ERROR ≡ connect_error }
    ensures enhance_your_calm { ENHANCE_YOUR_CALM ≡ enhance_your_calm }
    ensures inadequate_security { INADEQUATE_SECURITY ≡ inadequate_security }
    ensures http_1_1_required { HTTP_1_1_REQUIRED ≡ http_1_1_required }
{}

/// Frames as another library writes and reads them.
pub fn worked_frames()
    ensures settings_ack { spelling
        (frame_of (record { length = 0; kind = 4; flags = 1; stream = 0 }) [])
        ≡ 0 ∷ 0 ∷ 0 ∷ 4 ∷ 1 ∷ 0 ∷ 0 ∷ 0 ∷ 0 ∷ [] }
    ensures headers_frame { spelling
        (frame_of (record { length = 1; kind = 1; flags = 5; stream = 2147483647 }) (0x79 ∷ []))
        ≡ 0 ∷ 0 ∷ 1 ∷ 1 ∷ 5 ∷ 0x7f ∷ 0xff ∷ 0xff ∷ 0xff ∷ 0x79 ∷ [] }
    ensures reserved_bit { spelling_with 1
        (frame_of (record { length = 3; kind = 0; flags = 188; stream = 1351192733 })
        (0x31 ∷ 0x16 ∷ 0xf3 ∷ []))
        ≡ 0 ∷ 0 ∷ 3 ∷ 0 ∷ 0xbc ∷ 0xd0 ∷ 0x89 ∷ 0x90 ∷ 0x9d ∷ 0x31 ∷ 0x16 ∷ 0xf3 ∷ [] }
    ensures stated { stated_length (0 ∷ 0x40 ∷ 1 ∷ 7 ∷ []) ≡ 16385 }
    ensures stated_so_far { stated_length (0 ∷ 0x40 ∷ []) ≡ 16384 }
{}
