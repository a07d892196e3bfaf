//! The definitions, evaluated on frames: one clause a line of the checks.
ghost use Rattle.std.specs.Prelude.{◌≡◌, [], ◌∷◌, true, false, replicate, Ok, Err};
ghost use Rattle.hpack_block.specs.declared.header.BlockFault.TheVariants as unread;
ghost use Rattle.h2_streams.specs.worked.Peers.{frame};
ghost use Rattle.h2_responses.specs.declared.event.ServerEvent.TheVariants as event;
ghost use Rattle.h2_responses.specs.declared.server.ResponseState.TheVariants.{Waiting, Headed, Over};
ghost use Rattle.h2_responses.specs.States.{new_server, in_state};
ghost use Rattle.h2_responses.specs.Outcomes.{nothing, gives};
ghost use Rattle.h2_responses.specs.Meanings.{said, headers_mean, meaning_of};
ghost use Rattle.h2_responses.specs.worked.Servers.{greeted, calling};

/// The first frame (RFC 9113 section 3.4), and SETTINGS (section 6.5).
pub fn worked_first_frames()
    ensures first_not_settings { meaning_of (frame 6 0 0 (replicate 8 0)) new_server
        ≡ said (Err 1) }
    ensures first_ack { meaning_of (frame 4 1 0 []) new_server ≡ said (Err 1) }
    ensures first_settings { meaning_of (frame 4 0 0 []) new_server
        ≡ said (gives (event.Settings 65535 false) greeted) }
    ensures push_enabled { meaning_of (frame 4 0 0 (0 ∷ 2 ∷ 0 ∷ 0 ∷ 0 ∷ 1 ∷ [])) greeted
        ≡ said (Err 1) }
    ensures push_disabled { meaning_of (frame 4 0 0 (0 ∷ 2 ∷ 0 ∷ 0 ∷ 0 ∷ 0 ∷ [])) greeted
        ≡ said (gives (event.Settings 65535 false) greeted) }
    ensures table_and_window { meaning_of
        (frame 4 0 0 (0 ∷ 1 ∷ 0 ∷ 0 ∷ 0 ∷ 0 ∷ 0 ∷ 4 ∷ 0 ∷ 0 ∷ 1 ∷ 0 ∷ [])) greeted
        ≡ said (gives (event.Settings 256 true) (record greeted { window = 256 })) }
{}

/// PRIORITY, RST_STREAM, PUSH_PROMISE, PING, GOAWAY, WINDOW_UPDATE and kinds that are unknown (sections 5.5 and 6.3 to 6.9).
pub fn worked_control_frames()
    ensures unknown { meaning_of (frame 20 0 3 []) greeted ≡ said (nothing greeted) }
    ensures priority { meaning_of (frame 2 0 9 (replicate 5 0)) greeted ≡ said (nothing greeted) }
    ensures priority_short { meaning_of (frame 2 0 9 []) greeted ≡ said (Err 6) }
    ensures push_promise { meaning_of (frame 5 4 3 []) (calling Waiting) ≡ said (Err 1) }
    ensures reset { meaning_of (frame 3 0 3 (0 ∷ 0 ∷ 0 ∷ 8 ∷ [])) (calling Headed)
        ≡ said (gives (event.Reset 3 8) (calling Over)) }
    ensures reset_unopened { meaning_of (frame 3 0 5 (0 ∷ 0 ∷ 0 ∷ 8 ∷ [])) (calling Headed)
        ≡ said (Err 1) }
    ensures reset_over { meaning_of (frame 3 0 1 (0 ∷ 0 ∷ 0 ∷ 8 ∷ [])) (calling Headed)
        ≡ said (nothing (calling Headed)) }
    ensures ping { meaning_of (frame 6 0 0 (1 ∷ 0 ∷ 0 ∷ 0 ∷ 0 ∷ 0 ∷ 0 ∷ 2 ∷ [])) greeted
        ≡ said (gives (event.Ping 0x100000000000002) greeted) }
    ensures ping_ack { meaning_of (frame 6 1 0 (replicate 8 0)) greeted ≡ said (nothing greeted) }
    ensures goaway { meaning_of (frame 7 0 0 (0x80 ∷ 0 ∷ 0 ∷ 3 ∷ 0 ∷ 0 ∷ 0 ∷ 0 ∷ 9 ∷ [])) greeted
        ≡ said (gives (event.GoAway 3) greeted) }
    ensures goaway_short { meaning_of (frame 7 0 0 (replicate 7 0)) greeted ≡ said (Err 6) }
    ensures window { meaning_of (frame 8 0 3 (0 ∷ 0 ∷ 0 ∷ 7 ∷ [])) (calling Headed)
        ≡ said (gives (event.Window 3 7) (calling Headed)) }
    ensures window_zero { meaning_of (frame 8 0 3 (0x80 ∷ 0 ∷ 0 ∷ 0 ∷ [])) (calling Headed)
        ≡ said (Err 1) }
    ensures window_over { meaning_of (frame 8 0 1 (0 ∷ 0 ∷ 0 ∷ 7 ∷ [])) (calling Headed)
        ≡ said (nothing (calling Headed)) }
{}

/// DATA, HEADERS and whole header blocks (sections 6.1, 6.2 and 8.1).
pub fn worked_response_frames()
    ensures data_before_headers { meaning_of (frame 0 0 3 (7 ∷ [])) (calling Waiting)
        ≡ said (Err 1) }
    ensures data_unopened { meaning_of (frame 0 0 5 (7 ∷ [])) (calling Headed) ≡ said (Err 1) }
    ensures data_on_even { meaning_of (frame 0 0 2 (7 ∷ [])) (calling Headed) ≡ said (Err 1) }
    ensures data_padded { meaning_of (frame 0 9 3 (1 ∷ 7 ∷ 8 ∷ 0 ∷ [])) (calling Headed)
        ≡ said (gives (event.Piece 3 (7 ∷ 8 ∷ []) 4 true) (calling Over)) }
    ensures data_over { meaning_of (frame 0 0 1 (7 ∷ [])) (calling Headed)
        ≡ said (gives (event.Piece 1 [] 1 true) (calling Headed)) }
    ensures headers_unopened { meaning_of (frame 1 4 5 []) (calling Headed) ≡ said (Err 1) }
    ensures continuation_outside { meaning_of (frame 9 4 3 []) (calling Headed) ≡ said (Err 1) }
    ensures head { headers_mean 3 false (Ok []) (calling Waiting)
        ≡ gives (event.Head 3 [] false) (calling Headed) }
    ensures head_alone { headers_mean 3 true (Ok []) (calling Waiting)
        ≡ gives (event.Head 3 [] true) (calling Over) }
    ensures trailers { headers_mean 3 true (Ok []) (calling Headed)
        ≡ gives (event.Trailers 3 []) (calling Over) }
    ensures second_head { headers_mean 3 false (Ok []) (calling Headed) ≡ Err 1 }
    ensures block_over { headers_mean 1 true (Ok []) (calling Waiting)
        ≡ nothing (calling Waiting) }
    ensures block_bad { headers_mean 1 true (Err unread.Bad) (calling Waiting) ≡ Err 9 }
    ensures block_too_long { headers_mean 3 true (Err unread.TooLong) (calling Waiting) ≡ Err 11 }
{}
