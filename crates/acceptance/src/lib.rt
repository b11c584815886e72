//! The worked rows: what the program answers to scripts and reports, as tables of text.
#![tactic(auto)]

#[cfg(test)]
mod faults;
#[cfg(test)]
mod gaps;
#[cfg(test)]
mod gates;
#[cfg(test)]
mod hom_reports;
#[cfg(test)]
mod lines;
#[cfg(test)]
mod local_reports;
#[cfg(test)]
mod long_reports;
#[cfg(test)]
mod loop_sequences;
#[cfg(test)]
mod module_reports;
#[cfg(test)]
mod products;
#[cfg(test)]
mod report_lines;
#[cfg(test)]
mod reports;
#[cfg(test)]
mod script_lines;
#[cfg(test)]
mod scripts;
#[cfg(test)]
mod sequence_reports;
#[cfg(test)]
mod sum_reports;
#[cfg(test)]
mod tables;
#[cfg(test)]
mod term_reports;
#[cfg(test)]
mod translate_reports;
#[cfg(test)]
mod words;
#[cfg(test)]
mod workers;
