ghost use Rattle.std.specs.Prelude.{◌≡◌, IfOk};

use edge::NoMemory;
use std::alloc::Global;

/// A status with the text to send.
#[derive(Debug, Drop)]
pub struct Reply {
    /// One of the constants of `status`.
    pub status: u8,
    /// What is to be sent.
    pub text: Vec<u8>,
}

/// Why there is no reply.
#[derive(Clone, Copy, Debug, PartialEq, Eq)]
pub enum Stop {
    /// A read failed.
    Failed,
    /// Memory was refused.
    NoMemory,
}

ghost use Rattle.merge_cli.specs.declared.reply.Stop.TheVariants as stop;

impl From<NoMemory> for Stop {
    ghost from_gives = { λ _ e. e ≡ stop.NoMemory };

    fn from(_refused: NoMemory) -> Self {
        Stop::NoMemory
    }
}

/// The reply with this text.
pub fn says(alloc: Global, status: u8, text: &[u8]) -> Result<Reply, NoMemory>
    ensures { IfOk result (λ reply. (reply.status ≡ status) × (reply.text.items ≡ text.now)) }
{
    let text = Vec::from_slice(alloc, text)?;
    Ok(Reply { status, text })
}
