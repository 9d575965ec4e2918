//! Why a text is not read.

use rx_lex::LexFault;
use thiserror::Error;

/// Why a text is no program. Places are counted in bytes.
#[derive(Debug, Drop, Error)]
pub enum SyntaxFault {
    #[error(transparent)]
    Lex(LexFault),
    #[error("no program goes on with what stands at byte {at}")]
    Syntax { at: u64 },
    #[error("what stands at byte {at} is deeper than texts may be")]
    TooDeep { at: u64 },
    #[error("out of memory")]
    OutOfMemory,
}
