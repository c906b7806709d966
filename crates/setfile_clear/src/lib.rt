// Whether the networks of a set file keep clear of the inner networks. The function asks in its contract that the bytes are a file.
pub mod entries;
