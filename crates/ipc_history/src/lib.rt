//! What is said of a history of calls, as definitions over lists: the state that it leads to, what each client is told,
//! the journal's rows, the objects that it made, and who is granted and who denied. The crate has no code.
#![tactic(auto)]
