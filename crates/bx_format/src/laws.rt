//! What a volume that was just made is.

ghost use Rattle.std.specs.Prelude.{◌≡◌, length};
ghost use Rattle.bx_disk.specs.Disks.{Disks};
ghost use Rattle.bx_global.specs.declared.state.GlobalState.{GlobalState};
ghost use Rattle.bx_layout.specs.declared.label.Label.{Label};
ghost use Rattle.bx_layout.specs.Labels.{IsLabel};
ghost use Rattle.bx_truth.specs.Opening.{opening_truth};
ghost use Rattle.bx_volume.specs.AtRest.{IsAtRest};
ghost use Rattle.bx_format.specs.Formats.{IsFormatted};

/// A volume that was just made is at rest, in each state with as many devices, and its blocks are those of the opening truth.
pub fn what_is_formatted_is_at_rest()
    ensures { (disks : Disks) (first : Label) (state : GlobalState) → IsLabel first → first.disk ≡ 0 → length state.devices ≡ first.devices → IsFormatted disks first
        → IsAtRest disks (λ image told. told ≡ state) first opening_truth }
{}
