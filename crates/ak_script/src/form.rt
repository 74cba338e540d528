//! The forms of statements. Each reads the words behind the first one of its line, and a hey line all of them.

pub(crate) mod hey;
pub(crate) mod launch;
pub(crate) mod lock;
pub(crate) mod post;
