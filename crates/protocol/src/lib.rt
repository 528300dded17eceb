// Heterogeneous Paxos 2.0: what a message means, and what is decided. The definitions are in specs/, the theorems in proofs/.
#![tactic(auto)]
