// Files, read up to a size and written from lent bytes, whatever they hold. A name is bytes too: a caller need not show that it is text.
#![tactic(auto)]

pub mod reading;
pub mod writing;
