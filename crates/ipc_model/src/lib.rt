//! What the service is to do, as definitions over lists and finite maps: the state of a namespace, the
//! decision on a call, a step, and a history of calls. The crate has no code.
#![tactic(auto)]
