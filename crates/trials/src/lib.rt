// Tests of the values, the shelves, the image and the engine: boundary cases, and one damaged image for each refusal.

#![tactic(auto)]

#[cfg(test)]
mod damage;
#[cfg(test)]
mod lengths;
#[cfg(test)]
mod opening;
#[cfg(test)]
mod shelving;
#[cfg(test)]
mod valued;
