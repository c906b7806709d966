// The entries of a file by their lengths, a lane for each, so that the next one in address order is that of the first lane. Each function asks in its contract what makes it safe.
pub mod lanes;
pub mod lining;
