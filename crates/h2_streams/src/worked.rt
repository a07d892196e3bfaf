//! The definitions, evaluated on frames and blocks: one clause a line of the checks.
ghost use Rattle.std.specs.Prelude.{◌≡◌, [], ◌∷◌, ◌++◌, true, false, codes, replicate, Some, Ok, Err};
ghost use Rattle.hpack_block.specs.declared.header.BlockFault.TheVariants as unread;
ghost use Rattle.hpack_block.specs.StaticTable.{pair};
ghost use Rattle.h2_events.specs.declared.event.RecvEvent.TheVariants as event;
ghost use Rattle.h2_streams.specs.States.{open_stream, peer_ends, reset, this_side_ends};
ghost use Rattle.h2_streams.specs.Outcomes.{nothing, gives, stream_fault};
ghost use Rattle.h2_streams.specs.Requests.{is_well_formed};
ghost use Rattle.h2_streams.specs.Blocks.{headers_mean, refused};
ghost use Rattle.h2_streams.specs.Meanings.{said, block_ends, meaning_of};
ghost use Rattle.h2_streams.specs.Calls.{new_peer};
ghost use Rattle.h2_streams.specs.worked.Peers.{frame, greeted, busy, block_with, in_block, full, post};

/// The first frame (RFC 9113 section 3.4).
pub fn worked_first_frames()
    ensures first_not_settings { meaning_of (frame 6 0 0 (replicate 8 0)) new_peer ≡ said (Err 1) }
    ensures first_ack { meaning_of (frame 4 1 0 []) new_peer ≡ said (Err 1) }
    ensures first_settings { meaning_of (frame 4 0 0 []) new_peer
        ≡ said (gives (event.Settings 65535 false) greeted) }
    ensures first_settings_on_a_stream { meaning_of (frame 4 0 1 []) new_peer ≡ said (Err 1) }
{}

/// DATA (section 6.1).
pub fn worked_data_frames()
    ensures data_on_0 { meaning_of (frame 0 0 0 []) busy ≡ said (Err 1) }
    ensures data_on_even { meaning_of (frame 0 0 2 []) busy ≡ said (Err 1) }
    ensures data_on_idle { meaning_of (frame 0 0 11 []) busy ≡ said (Err 1) }
    ensures data_no_padding { meaning_of (frame 0 8 3 []) busy ≡ said (Err 6) }
    ensures data_long_padding { meaning_of (frame 0 8 3 (2 ∷ 7 ∷ [])) busy ≡ said (Err 1) }
    ensures data_all_padding { meaning_of (frame 0 8 3 (1 ∷ 7 ∷ [])) busy
        ≡ said (gives (event.Piece 3 [] 2 false) busy) }
    ensures data_closed { meaning_of (frame 0 0 9 (7 ∷ [])) busy
        ≡ said (gives (event.Piece 9 [] 1 true) busy) }
    ensures data_skipped { meaning_of (frame 0 0 1 (7 ∷ [])) busy
        ≡ said (gives (event.Piece 1 [] 1 true) busy) }
    ensures data_after_end { meaning_of (frame 0 0 5 (7 ∷ [])) busy ≡ said (stream_fault 5 5 busy) }
    ensures data_ended_here { meaning_of (frame 0 0 7 (7 ∷ [])) busy
        ≡ said (gives (event.Piece 7 (7 ∷ []) 1 false) busy) }
    ensures data_ends { meaning_of (frame 0 1 7 (7 ∷ [])) busy
        ≡ said (gives (event.Piece 7 (7 ∷ []) 1 true) (reset 7 busy)) }
    ensures data_padded { meaning_of (frame 0 9 3 (1 ∷ 7 ∷ 8 ∷ 0 ∷ [])) busy
        ≡ said (gives (event.Piece 3 (7 ∷ 8 ∷ []) 4 true) (peer_ends 3 busy)) }
{}

/// HEADERS and CONTINUATION (sections 6.2 and 6.10).
pub fn worked_header_frames()
    ensures in_a_block { meaning_of (frame 0 0 3 []) in_block ≡ said (Err 1) }
    ensures unknown_in_a_block { meaning_of (frame 20 0 3 []) in_block ≡ said (Err 1) }
    ensures other_continuation { meaning_of (frame 9 4 3 []) in_block ≡ said (Err 1) }
    ensures continuation { meaning_of (frame 9 4 11 (0x84 ∷ [])) in_block
        ≡ block_ends (block_with (0x82 ∷ 0x84 ∷ [])) }
    ensures headers_on_0 { meaning_of (frame 1 4 0 []) busy ≡ said (Err 1) }
    ensures headers_no_priority { meaning_of (frame 1 36 11 (0 ∷ 0 ∷ 0 ∷ 0 ∷ [])) busy
        ≡ said (Err 6) }
    ensures headers_padded { meaning_of (frame 1 45 11 (1 ∷ 0 ∷ 0 ∷ 0 ∷ 0 ∷ 0 ∷ 0x82 ∷ 0 ∷ [])) busy
        ≡ block_ends (block_with (0x82 ∷ [])) }
    ensures continuation_outside { meaning_of (frame 9 4 3 []) busy ≡ said (Err 1) }
    ensures headers_on_even { meaning_of (frame 1 4 12 []) busy ≡ said (Err 1) }
    ensures headers_begin_a_block { meaning_of (frame 1 1 11 (0x82 ∷ [])) busy
        ≡ said (nothing in_block) }
    ensures headers_no_padding { meaning_of (frame 1 12 11 []) busy ≡ said (Err 6) }
    ensures headers_long_padding { meaning_of (frame 1 12 11 (2 ∷ 0 ∷ [])) busy ≡ said (Err 1) }
    ensures largest_block { meaning_of (frame 9 4 11 (0 ∷ []))
        (record busy { block = Some (block_with (replicate 65536 0)) })
        ≡ said (Err 11) }
{}

/// PRIORITY, RST_STREAM, PUSH_PROMISE, PING, GOAWAY, and kinds that are unknown (sections 5.5, 6.3, 6.4 and 6.6 to 6.8).
pub fn worked_control_frames()
    ensures unknown { meaning_of (frame 20 0 3 []) busy ≡ said (nothing busy) }
    ensures priority_on_0 { meaning_of (frame 2 0 0 (replicate 5 0)) busy ≡ said (Err 1) }
    ensures priority_short { meaning_of (frame 2 0 11 (replicate 4 0)) busy
        ≡ said (gives (event.StreamFault 11 6) busy) }
    ensures priority { meaning_of (frame 2 0 11 (replicate 5 0)) busy ≡ said (nothing busy) }
    ensures rst_short { meaning_of (frame 3 0 11 (replicate 3 0)) busy ≡ said (Err 6) }
    ensures rst_idle { meaning_of (frame 3 0 11 (replicate 4 0)) busy ≡ said (Err 1) }
    ensures rst_open { meaning_of (frame 3 0 3 (replicate 4 0)) busy
        ≡ said (gives (event.Reset 3) (reset 3 busy)) }
    ensures push_promise { meaning_of (frame 5 0 3 []) busy ≡ said (Err 1) }
    ensures ping_short { meaning_of (frame 6 0 3 (replicate 7 0)) busy ≡ said (Err 6) }
    ensures ping_stream { meaning_of (frame 6 0 3 (replicate 8 0)) busy ≡ said (Err 1) }
    ensures ping_ack { meaning_of (frame 6 1 0 (replicate 8 0)) busy ≡ said (nothing busy) }
    ensures ping { meaning_of (frame 6 0 0 (1 ∷ 0 ∷ 0 ∷ 0 ∷ 0 ∷ 0 ∷ 0 ∷ 2 ∷ [])) busy
        ≡ said (gives (event.Ping 0x100000000000002) busy) }
    ensures goaway_short { meaning_of (frame 7 0 3 (replicate 7 0)) busy ≡ said (Err 6) }
    ensures goaway_stream { meaning_of (frame 7 0 3 (replicate 8 0)) busy ≡ said (Err 1) }
    ensures goaway { meaning_of (frame 7 0 0 (replicate 9 0)) busy
        ≡ said (gives (event.GoAway) busy) }
    ensures rst_closed { meaning_of (frame 3 0 9 (replicate 4 0)) busy ≡ said (nothing busy) }
    ensures rst_on_0 { meaning_of (frame 3 0 0 (replicate 4 0)) busy ≡ said (Err 1) }
    ensures priority_open { meaning_of (frame 2 0 3 []) busy ≡ said (stream_fault 3 6 busy) }
{}

/// SETTINGS (section 6.5).
pub fn worked_settings_frames()
    ensures settings_ack_long { meaning_of (frame 4 1 0 (replicate 6 0)) busy ≡ said (Err 6) }
    ensures settings_five { meaning_of (frame 4 0 3 (replicate 5 0)) busy ≡ said (Err 6) }
    ensures settings_stream { meaning_of (frame 4 0 3 []) busy ≡ said (Err 1) }
    ensures settings_ack { meaning_of (frame 4 1 0 []) busy
        ≡ said (gives (event.SettingsAck) busy) }
    ensures settings_push { meaning_of (frame 4 0 0 (0 ∷ 2 ∷ 0 ∷ 0 ∷ 0 ∷ 2 ∷ [])) busy
        ≡ said (Err 1) }
    ensures settings_window { meaning_of (frame 4 0 0 (0 ∷ 4 ∷ 0x80 ∷ 0 ∷ 0 ∷ 0 ∷ [])) busy
        ≡ said (Err 3) }
    ensures settings_frame { meaning_of (frame 4 0 0 (0 ∷ 5 ∷ 0 ∷ 0 ∷ 0x3f ∷ 0xff ∷ [])) busy
        ≡ said (Err 1) }
    ensures settings_first_fault { meaning_of
        (frame 4 0 0 (0 ∷ 4 ∷ 0x80 ∷ 0 ∷ 0 ∷ 0 ∷ 0 ∷ 2 ∷ 0 ∷ 0 ∷ 0 ∷ 2 ∷ [])) busy
        ≡ said (Err 3) }
    ensures settings_table { meaning_of
        (frame 4 0 0 (0 ∷ 1 ∷ 0 ∷ 0 ∷ 0 ∷ 0 ∷ 0 ∷ 4 ∷ 0 ∷ 0 ∷ 1 ∷ 0 ∷ [])) busy
        ≡ said (gives (event.Settings 256 true) (record busy { window = 256 })) }
    ensures settings_large_frame { meaning_of (frame 4 0 0 (0 ∷ 5 ∷ 1 ∷ 0 ∷ 0 ∷ 0 ∷ [])) busy
        ≡ said (Err 1) }
    ensures settings_unknown { meaning_of (frame 4 0 0 (0 ∷ 9 ∷ 1 ∷ 0 ∷ 0 ∷ 0 ∷ [])) busy
        ≡ said (gives (event.Settings 65535 false) busy) }
{}

/// WINDOW_UPDATE (section 6.9).
pub fn worked_window_frames()
    ensures window_short { meaning_of (frame 8 0 11 (replicate 3 0)) busy ≡ said (Err 6) }
    ensures window_idle { meaning_of (frame 8 0 11 (0 ∷ 0 ∷ 0 ∷ 0 ∷ [])) busy ≡ said (Err 1) }
    ensures window_zero { meaning_of (frame 8 0 0 (0x80 ∷ 0 ∷ 0 ∷ 0 ∷ [])) busy ≡ said (Err 1) }
    ensures window_zero_open { meaning_of (frame 8 0 3 (0 ∷ 0 ∷ 0 ∷ 0 ∷ [])) busy
        ≡ said (stream_fault 3 1 busy) }
    ensures window_zero_closed { meaning_of (frame 8 0 1 (0 ∷ 0 ∷ 0 ∷ 0 ∷ [])) busy
        ≡ said (gives (event.StreamFault 1 1) busy) }
    ensures window_all { meaning_of (frame 8 0 0 (0 ∷ 0 ∷ 0 ∷ 5 ∷ [])) busy
        ≡ said (gives (event.Window 0 5) busy) }
    ensures window_open { meaning_of (frame 8 0 3 (0x80 ∷ 0 ∷ 0 ∷ 5 ∷ [])) busy
        ≡ said (gives (event.Window 3 5) busy) }
    ensures window_half { meaning_of (frame 8 0 5 (0 ∷ 0 ∷ 0 ∷ 5 ∷ [])) busy
        ≡ said (gives (event.Window 5 5) busy) }
    ensures window_ended { meaning_of (frame 8 0 7 (0 ∷ 0 ∷ 0 ∷ 5 ∷ [])) busy
        ≡ said (nothing busy) }
    ensures window_closed { meaning_of (frame 8 0 9 (0 ∷ 0 ∷ 0 ∷ 5 ∷ [])) busy
        ≡ said (nothing busy) }
    ensures window_on_even { meaning_of (frame 8 0 2 (0 ∷ 0 ∷ 0 ∷ 5 ∷ [])) busy ≡ said (Err 1) }
{}

/// Whole header blocks, and an end by this side (sections 5.1 and 8.1).
pub fn worked_whole_blocks()
    ensures block_bad { headers_mean 9 true (Err unread.Bad) busy ≡ Err 9 }
    ensures block_closed { headers_mean 9 true (Ok post) busy ≡ nothing busy }
    ensures block_after_end { headers_mean 5 true (Ok post) busy ≡ stream_fault 5 5 busy }
    ensures block_open { headers_mean 3 false (Ok post) busy ≡ stream_fault 3 1 busy }
    ensures trailers { headers_mean 7 true (Err unread.TooLong) busy
        ≡ gives (event.Trailers 7) (reset 7 busy) }
    ensures malformed { headers_mean 11 true (Ok []) busy
        ≡ gives (event.StreamFault 11 1) (record busy { highest = 11 }) }
    ensures call { headers_mean 11 true (Ok post) busy
        ≡ gives (event.Call 11 post true) (open_stream 11 true busy) }
    ensures too_long { headers_mean 13 false (Err unread.TooLong) busy
        ≡ gives (event.TooLong 13) (open_stream 13 false busy) }
    ensures ended { this_side_ends 5 busy ≡ reset 5 busy }
    ensures one_stream_too_many { headers_mean 11 true (Ok post) full ≡ refused 11 7 full }
    ensures block_skipped { headers_mean 1 true (Ok post) busy ≡ nothing busy }
{}

/// Headers of requests (sections 8.2 and 8.3).
pub fn worked_request_headers()
    ensures well_formed { is_well_formed post ≡ true }
    ensures repeated { is_well_formed (pair (codes ":path") (codes "/") ∷ post) ≡ false }
    ensures pseudo_behind { is_well_formed (post ++ pair (codes ":authority") (codes "x") ∷ [])
        ≡ false }
    ensures upper_case { is_well_formed (post ++ pair (codes "tE") [] ∷ []) ≡ false }
    ensures of_the_connection { is_well_formed (post ++ pair (codes "upgrade") [] ∷ []) ≡ false }
    ensures no_path { is_well_formed
        (pair (codes ":method") (codes "POST") ∷ pair (codes ":scheme") (codes "http") ∷ [])
        ≡ false }
    ensures other_pseudo { is_well_formed (pair (codes ":status") (codes "200") ∷ post) ≡ false }
    ensures two_authorities { is_well_formed
        (pair (codes ":authority") [] ∷ pair (codes ":authority") [] ∷ post)
        ≡ false }
{}
