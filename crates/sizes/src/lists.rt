// The ready lists, rule by rule.
use rules::RuleList;
use std::io;

fn rules(out: &impl Print, name: &str, list: &RuleList) -> io::Result<()> {
    println!(out; "{name}_COUNT,{}", list.len)?;
    for (i, rule) in list.rules.iter().enumerate() {
        println!(out; "{name}_{i}_K,{}", rule.k)?;
        println!(out; "{name}_{i}_M,{}", rule.m)?;
        println!(out; "{name}_{i}_Z,{}", rule.zones)?;
    }
    Ok(())
}

pub fn ready(out: &impl Print) -> io::Result<()> {
    rules(out, "WESTERN_ELECTRIC", &RuleList::western_electric())?;
    rules(out, "DUNCAN", &RuleList::duncan())
}
