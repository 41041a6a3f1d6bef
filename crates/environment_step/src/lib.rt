//! What an entry does to one environment, as a function of the environment's state: the form that
//! the code follows. It need not be trusted, since `laws::step` ties it to the definitions of
//! `call_model`.
#![tactic(auto)]

pub mod laws;
