// What every changing call does with the pool: it judges its result before anything is written, moves the sets behind it, and puts the roots right. Each function asks in its contract what makes
// it safe.
pub mod judging;
pub mod relinking;
