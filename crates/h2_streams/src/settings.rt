ghost use Rattle.std.specs.Prelude.{◌≡◌, IfOk, IfErr, Ok, Err, false};
ghost use Rattle.h2_streams.specs.Payloads.{with_setting, with_settings};

use crate::numbers::{of_2, of_4};
use h2_frame::{FLOW_CONTROL_ERROR, PROTOCOL_ERROR};

const LARGEST_WINDOW: u32 = 2_147_483_647;

/// What the peer's settings say so far.
#[derive(Clone, Copy, Debug)]
pub struct Settings {
    /// Its initial window.
    pub window: u32,
    /// Whether HEADER_TABLE_SIZE is among them.
    pub table: bool,
}

// One setting more.
fn with_setting(name: u32, value: u32, told: Settings) -> Result<Settings, u32>
    ensures { result ≡ with_setting name value told }
{
    let window = told.window;
    let table = told.table;
    match name {
        1 => Ok(Settings {
            window,
            table: true,
        }),
        2 if value > 1 => Err(PROTOCOL_ERROR),
        4 if value > LARGEST_WINDOW => Err(FLOW_CONTROL_ERROR),
        4 => Ok(Settings {
            window: value,
            table,
        }),
        5 if value < 16_384 || value > 16_777_215 => Err(PROTOCOL_ERROR),
        _ => Ok(told),
    }
}

/// The settings of a frame's payload, taken in their order, where the initial window was `window` octets before (RFC 9113
/// section 6.5.2). An `Err` has the code of a connection error.
pub fn settings_in(payload: &[u8], window: u32) -> Result<Settings, u32>
    ensures { result ≡ with_settings payload.now (record { window = window; table = false }) }
{
    let mut told = Settings {
        window,
        table: false,
    };
    let mut rest = payload;
    while let [n1, n0, v3, v2, v1, v0, ..] = rest {
        told = with_setting(of_2(*n1, *n0), of_4(*v3, *v2, *v1, *v0), told)?;
        rest = &rest[6..];
    }
    Ok(told)
}
