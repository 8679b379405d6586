// The label of each command that occurs in a word: the largest command of its part. Labels of commands that conflict
// are merged until each part has one.

#![tactic(auto)]

ghost use Rattle.std.specs.Prelude.{ℕ, ◌+◌, ◌<◌, ◌≡◌, List, eqb, length};
ghost use Rattle.theory_conjugacy.specs.Part as Part;
ghost use Rattle.spec.specs.Letters.{alphabet};
ghost use Rattle.input_chains.specs.Conflicts.{Conflicts};
ghost use Rattle.conjugacy_commands.specs.Flags.{Flags, flagged_at, flagged};
ghost use Rattle.conjugacy_labels.specs.Labels.{LabelsOf};
ghost use Rattle.conjugacy_labels.specs.Merge.{Relabelled, LineOf};

// Each command is its own label.
fn own_labels() -> [u8; 24]
    ensures { LabelsOf (λ k. k) result }
{
    std::array::from_fn(|k| k as u8 + 1)
}

// The label once low has become high.
fn renamed(label: u8, low: u8, high: u8) -> u8
    ensures { result ≡ Part.relabel_step (eqb label low) high label }
{
    if label == low { high } else { label }
}

// Every label that is low becomes high.
fn relabel(labels: &mut [u8; 24], low: u8, high: u8)
    ensures { length labels.old ≡ 24
        → Relabelled low high labels.old labels.new }
{
    for label in labels.iter_mut() {
        *label = renamed(*label, low, high);
    }
}

// The labels of commands i + 1 and j + 1 become one, the larger.
fn unite(labels: &mut [u8; 24], i: usize, j: usize)
    requires { (i < 24) × (j < 24) }
    ensures { (lab : ℕ → ℕ) → LabelsOf lab labels.old
        → LabelsOf (λ k. Part.relabel (lab (i + 1)) (lab (j + 1)) (lab k)) labels.new }
{
    let a = labels[i];
    let b = labels[j];
    if a < b {
        relabel(labels, a, b);
        return;
    }
    if b < a {
        relabel(labels, b, a);
    }
}

// The labels of commands i + 1 and j + 1 become one if j + 1 is flagged and conflicts with i + 1.
fn merge(labels: &mut [u8; 24], flags: &[u16; 24], line: &[u16; 24], i: usize, j: usize)
    requires { (i < 24) × (j < 24) }
    ensures { (c : List ℕ) (lab : ℕ → ℕ) → LineOf c i line.now → LabelsOf lab labels.old
        → LabelsOf (Part.merge_row (alphabet c) (i + 1) (flagged_at flags.now j) lab)
        labels.new }
{
    if flags[j] != 1 {
        return;
    }
    if line[j] == 0 {
        return;
    }
    unite(labels, i, j);
}

// Command i + 1, if it is flagged, with each flagged command.
fn merge_row(labels: &mut [u8; 24], flags: &[u16; 24], line: &[u16; 24], i: usize)
    requires { i < 24 }
    ensures { (c : List ℕ) (lab : ℕ → ℕ) → length flags.now ≡ 24
        → LineOf c i line.now → LabelsOf lab labels.old
        → LabelsOf (Part.merge_all (alphabet c) (flagged_at flags.now i)
        (flagged 1 flags.now) lab)
        labels.new }
{
    if flags[i] != 1 {
        return;
    }
    for j in 0..24 {
        merge(labels, flags, line, i, j);
    }
}

// The labels of the flagged commands.
pub fn labels(flags: &[u16; 24], conflicts: &[[u16; 24]; 24]) -> [u8; 24]
    ensures { (c ks : List ℕ) → Conflicts c conflicts.now → Flags ks flags.now
        → LabelsOf (Part.labels (alphabet c) ks) result }
{
    let mut labels = own_labels();
    for (i, line) in conflicts.iter().enumerate() {
        merge_row(&mut labels, flags, line, i);
    }
    labels
}
