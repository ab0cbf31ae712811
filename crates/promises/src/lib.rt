// What the demands on the definitions say of the calls: of Table's answer and buffer, and of Table, yields, Find, Record, Setting and samples
// before and after one byte of a sample is changed. There is no function here.
#![tactic(auto)]
