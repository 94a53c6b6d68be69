// Exact geometry of the plane of level against head: its definitions stand in specs/.
#![tactic(auto)]
