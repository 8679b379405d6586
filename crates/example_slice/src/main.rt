// A caller that hands on what a call has written: the bytes of the normal form of (1, 3, -1), to standard output.

#![tactic(auto)]

fn show(catalogue: &[u8], plan: &[u8], area: &mut [u8], places: &mut [u16]) {
    let formed = busplan::normal_form(catalogue, plan, area, places);
    if let Ok(form) = formed {
        io::write_all(1, &area[..form.length]);
    }
}

fn main() {
    let catalogue = [4u8, 3, 1, 2, 3, 0, 2, 0, 3, 0, 4, 0];
    let plan = [1u8, 3, 129];
    let mut area = [0u8; 3];
    let mut places = [0u16; 3];
    show(&catalogue, &plan, &mut area, &mut places);
}
