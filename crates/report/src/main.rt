// Program `report`: the input of `ingress`; after it what an operator looks at, and the last line of `ingress`.

#![tactic(auto)]

use bank::Bank;

fn main(rt: HostRuntime) {
    let mut bank = Bank {
        words: [0; bank::WORDS],
    };
    let mut lists = [0; sizes::LISTS];
    let mut output = rt.stdout();
    let drained = stream::drain(&mut rt.stdin(), &mut output, &mut bank, &mut lists, true);
    let reported = stream::report(&mut output, &bank, drained);
    stream::close(&mut output, &mut rt.stderr(), b"report", reported);
}
