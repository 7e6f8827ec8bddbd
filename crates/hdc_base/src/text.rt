//! Small lists that contracts see as lists.

use sqlite_items::Items;

/// A text: a list of bytes.
pub type Text = Items<u8>;

/// A list of texts.
pub type Texts = Items<Text>;

/// A list of codes of characters.
pub type Runes = Items<u32>;

/// Numbers of calls, the first call of an object being 1.
pub type Calls = Items<u64>;
