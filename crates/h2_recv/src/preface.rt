ghost use Rattle.std.specs.Prelude.{◌≡◌, ◌≤◌, ◌↔◌, IsTrue};
ghost use Rattle.h2_recv.specs.Receiving.{share, GoesOn};

const PREFACE: [u8; 24] = *b"PRI * HTTP/2.0\r\n\r\nSM\r\n\r\n";

pub(crate) const PREFACE_OCTETS: usize = 24;

fn same(xs: &[u8], ys: &[u8]) -> bool
    ensures { IsTrue result ↔ (xs.now ≡ ys.now) }
{
    xs == ys
}

/// How many octets of a piece are the preface's, of which so many came before.
pub(crate) fn share(begun: usize, piece: &[u8]) -> usize
    requires { begun ≤ 24 }
    ensures { result ≡ share begun piece.now }
{
    (PREFACE.len() - begun).min(piece.len())
}

/// Whether they are those of the preface.
pub(crate) fn goes_on(begun: usize, piece: &[u8]) -> bool
    requires { begun ≤ 24 }
    ensures { IsTrue result ↔ GoesOn begun piece.now }
{
    let share = share(begun, piece);
    same(&piece[..share], &PREFACE[begun..begun + share])
}
