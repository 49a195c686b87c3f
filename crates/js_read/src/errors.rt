//! Why a text is no module.
use thiserror::Error;

/// Why a text gives no module.
#[derive(Clone, Copy, Debug, PartialEq, Eq, Error)]
pub enum JsError {
    /// The text is no module of the subset. The longest front of it that begins one has this many bytes.
    #[error("no module goes on so behind byte {0}")]
    BadJs(u64),
    /// No memory was left.
    #[error("no memory is left")]
    NoMemory,
}
