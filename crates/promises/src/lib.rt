// What the bridge keeps to over every history of calls: definitions in specs/, theorems about `take_of`, which `stage::take` meets, in proofs/.

#![tactic(auto)]
