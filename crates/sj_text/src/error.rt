// Why a text is no listing.
use thiserror::Error;

/// Why a text gives no class.
#[derive(Clone, Copy, Debug, PartialEq, Eq, Error)]
pub enum ListingError {
    /// The text is no listing. The longest front of it that begins one has this many bytes.
    #[error("no listing goes on so behind byte {0}")]
    BadListing(u64),
    /// No memory was left.
    #[error("no memory is left")]
    NoMemory,
}
