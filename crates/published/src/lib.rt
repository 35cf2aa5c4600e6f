// Worked examples with their published results, against the public calls.
#![tactic(auto)]

#[cfg(test)]
mod bookings;
#[cfg(test)]
mod no;
#[cfg(test)]
mod picks;
#[cfg(test)]
mod pictures;
#[cfg(test)]
mod values;
