// Program `ingress` of document 01: records from standard input, a line for each arrival, and a last line.

#![tactic(auto)]

use bank::Bank;

fn main(rt: HostRuntime) {
    let mut bank = Bank {
        words: [0; bank::WORDS],
    };
    let mut lists = [0; sizes::LISTS];
    let mut output = rt.stdout();
    let d = stream::drain(&mut rt.stdin(), &mut output, &mut bank, &mut lists, false);
    stream::close(&mut output, &mut rt.stderr(), b"ingress", d);
}
