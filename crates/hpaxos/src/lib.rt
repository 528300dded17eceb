// The C interface: each call is declared for C in include/hpaxos.h.
#![tactic(auto)]

mod plain_calls;
mod round_calls;
